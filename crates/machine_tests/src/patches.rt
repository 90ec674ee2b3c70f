//! Writes and deletes, and the bytes that are there afterwards.

// Of parts of stripes the old bytes are gathered, of a stripe that is written whole none. An empty write changes no byte.
pub const BYTES: &[u8] = b"\
writes over parts of two stripes, over a whole one, past the end from inside and from the end>
client
put a ramp:01:16
write a 6 ramp:65:4
get a
client
put b ramp:01:16
write b 8 ramp:65:8
write b 3 fill:c9:0
get b
client
put c ramp:01:8
write c 6 ramp:65:6
stat c
get c
client
put d ramp:01:8
write d 8 ramp:65:3
get d
schedule
c 0*99
c 1*99
c 2*99
drain
end
>
H 0 c0.0 ok
H 1 c0.1 ok
H 2 c0.2 bytes hex:010203040506656667680b0c0d0e0f10
H 3 c1.0 ok
H 4 c1.1 ok
H 5 c1.2 ok
H 6 c1.3 bytes hex:010203040506070865666768696a6b6c
H 7 c2.0 ok
H 8 c2.1 ok
H 9 c2.2 length 12
H 10 c2.3 bytes hex:01020304050665666768696a
H 11 c3.0 ok
H 12 c3.1 ok
H 13 c3.2 bytes hex:0102030405060708656667
L a 16
L b 16
L c 12
L d 11
G c0.1 8 8 0 0
G c0.2 8 8 0 0
G c1.3 8 8 0 0
G c2.1 4 4 0 0
G c2.3 8 4 0 0
G c3.2 7 4 0 0
T 0 43 8 0
T 1 36 8 0
T 2 0 8 0
T 3 0 8 0
end
|writes are refused, and an object is deleted and put anew>
client
delete a
write a 0 hex:65
put a ramp:01:8
write a 9 ramp:65:17
write a 8 ramp:65:17
get a
delete a
get a
put a ramp:33:8
get a
schedule
drain
end
>
H 0 c0.0 nosuch
H 1 c0.1 nosuch
H 2 c0.2 ok
H 3 c0.3 outrange
H 4 c0.4 toolarge
H 5 c0.5 bytes hex:0102030405060708
H 6 c0.6 ok
H 7 c0.7 nosuch
H 8 c0.8 ok
H 9 c0.9 bytes hex:333435363738393a
L a 8
G c0.5 4 4 0 0
G c0.9 4 4 0 0
T 0 8 1 0
T 1 8 1 0
T 2 0 1 0
T 3 0 1 0
end
|too many chunks are lost for a write over a part, and none too many for one over all>
client
put a ramp:01:8
client
write a 2 ramp:65:4
write a 0 ramp:65:8
get a
schedule
c 0*11
wipe 0
wipe 1
wipe 2
drain
end
>
H 0 c0.0 ok
H 1 c1.1 ok
H 2 c1.2 bytes hex:65666768696a6b6c
X c1.0 unavailable stripe 0 missing 0/0/1 1/0/1 2/0/1
L a 8
G c1.2 4 4 0 0
T 0 4 1 1
T 1 4 1 1
T 2 0 1 1
T 3 0 1 0
end
";

// The writes have two tries.
pub const MEANWHILE: &[u8] = b"\
another change comes before each of its two commits>
client
put a ramp:01:8
client
write a 0 ramp:65:2
client
write a 1 ramp:c9:2
client
put a ramp:33:8
get a
schedule
c 0*11
c 1*5
c 2*99
c 1*8
c 3*11
c 1*99
drain
end
>
H 0 c0.0 ok
H 1 c2.0 ok
H 2 c3.0 ok
H 3 c3.1 bytes hex:333435363738393a
X c1.0 contended 0/1 1/2
L a 8
G c1.0 8 8 0 0
G c2.0 4 4 0 0
G c3.1 4 4 0 0
T 0 16 1 0
T 1 16 1 0
T 2 0 1 0
T 3 0 1 0
end
|a get goes on with the bytes that it looked at, though the object is deleted; then they are swept>
client
put a ramp:01:8
client
get a
client
delete a
schedule
c 0*11
c 1
c 2
s*99
c 1*99
s*99
end
>
H 0 c0.0 ok
H 1 c1.0 bytes hex:0102030405060708
H 2 c2.0 ok
G c1.0 4 4 0 0
T 0 4 0 0
T 1 4 0 0
T 2 0 0 0
T 3 0 0 0
end
|what a get pins is garbage once its pass is reaped>
client
put a ramp:01:8
put a ramp:33:8
client
get a
schedule
c 0*11
c 1
c 0*11
s*99
reap c 1
s*99
end
>
H 0 c0.0 ok
H 2 c0.1 ok
O c1.0
L a 8
T 0 0 1 0
T 1 0 1 0
T 2 0 1 0
T 3 0 1 0
end
|a write is reaped, and what it prepared is swept>
client
put a ramp:01:8
client
write a 0 ramp:65:2
client
get a
schedule
c 0*11
c 1*5
reap c 1
c 1*99
drain
end
>
H 0 c0.0 ok
H 2 c2.0 bytes hex:0102030405060708
X c1.0 reaped 1
L a 8
G c1.0 4 4 0 0
G c2.0 4 4 0 0
T 0 8 1 0
T 1 8 1 0
T 2 0 1 0
T 3 0 1 0
end
|a stripe that was written over is swept>
client
put a ramp:01:16
write a 2 ramp:65:4
get a
schedule
c 0*99
s*99
end
>
H 0 c0.0 ok
H 1 c0.1 ok
H 2 c0.2 bytes hex:0102656667680708090a0b0c0d0e0f10
L a 16
G c0.1 4 4 0 0
G c0.2 8 8 0 0
T 0 12 2 0
T 1 12 2 0
T 2 0 2 0
T 3 0 2 0
end
";
