//! Each end of a rebuild.

// Of a lost chunk the repair layers of the three others are taken, or whole chunks of as many servers as there are data chunks.
pub const REBUILDS: &[u8] = b"\
of no object, of no stripe, of a chunk that is there, of one that is lost, and at a server that is away>
client
put a ramp:01:8
client
get a
repairer
rebuild a 0 1
repairer
rebuild a 1 1
repairer
rebuild a 0 1
repairer
rebuild a 0 1
repairer
rebuild a 0 1
schedule
r 0*99
c 0*11
r 1*99
r 2*99
wipe 1
r 3*99
c 1*99
down 1
drain
end
>
H 0 c0.0 ok
H 1 c1.0 bytes hex:0102030405060708
R r0.0 nosuch
R r1.0 nosuch
R r2.0 here
R r3.0 rebuilt
R r4.0 away 1
L a 8
G c1.0 4 4 0 0
G r3.0 2 0 2 2
T 0 6 1 0
T 1 4 1 1
T 2 2 1 0
T 3 2 1 0
end
|of whole chunks>
client
put a ramp:01:8
client
get a
repairer
rebuild a 0 1
schedule
c 0*11
wipe 1
wipe 3
r 0*99
wipe 0
drain
end
>
H 0 c0.0 ok
H 1 c1.0 bytes hex:0102030405060708
R r0.0 rebuilt
L a 8
G c1.0 0 8 4 0
G r0.0 4 0 4 0
T 0 4 0 1
T 1 8 1 1
T 2 8 1 0
T 3 0 0 1
end
|too many chunks are missing>
client
put a ramp:01:8
repairer
rebuild a 0 1
schedule
c 0*11
wipe 0
wipe 1
down 2
drain
end
>
H 0 c0.0 ok
R r0.0 unavailable stripe 0 missing 1/0/1 0/0/1 2/0/a1
L a 8
T 0 0 0 1
T 1 0 0 1
T 2 0 1 0
T 3 0 1 0
end
|a reap is told when the chunk is made and the version is to be confirmed, or when the chunk is there>
client
put a ramp:01:8
repairer
rebuild a 0 1
repairer
rebuild a 0 1
schedule
c 0*11
wipe 1
r 0
reap r 0
r 0*99
r 1*10
reap r 1
drain
end
>
H 0 c0.0 ok
R r0.0 reaped 1
R r1.0 reaped 2
L a 8
G r0.0 2 0 2 2
G r1.0 2 0 2 2
T 0 4 1 0
T 1 0 1 1
T 2 4 1 0
T 3 4 1 0
end
|the object is put anew when the chunk is made>
client
put a ramp:01:8
client
put a ramp:33:8
client
get a
repairer
rebuild a 0 1
schedule
c 0*11
wipe 1
r 0*4
c 1*11
r 0*99
c 2*99
end
>
H 0 c0.0 ok
H 1 c1.0 ok
H 2 c2.0 bytes hex:333435363738393a
R r0.0 superseded 1
L a 8
G c2.0 4 4 0 0
G r0.0 2 0 2 2
T 0 6 2 0
T 1 4 1 1
T 2 2 2 0
T 3 2 2 0
end
";
