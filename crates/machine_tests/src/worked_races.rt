//! Worked scripts of races, and of calls that are given up.

// Calls of two clients on one object.
pub const RACES: &[u8] = b"\
a get has the bytes of its look, though they are replaced and swept>
clay 1
code 2 2 1
client
put a hex:0100000000000000
put a hex:0200000000000000
client
get a
schedule
c 0*11
c 1
c 0*11
s*2
drain
end
>
H 0 c0.0 ok
H 1 c1.0 bytes hex:0100000000000000
H 2 c0.1 ok
L a 8
G c1.0 4 4 0 0
T 0 4 1 0
T 1 4 1 0
T 2 0 1 0
T 3 0 1 0
end
|a write that has one try loses the race>
clay 1
code 2 2 1
tries 1
client
put a fill:00:8
write a 0 hex:01
client
write a 1 hex:02
get a
schedule
c 0*12
c 1
drain
end
>
H 0 c0.0 ok
H 1 c0.1 ok
H 2 c1.1 bytes hex:0100000000000000
X c1.0 contended 0/1
L a 8
G c0.1 4 4 0 0
G c1.0 4 4 0 0
G c1.1 4 4 0 0
T 0 12 1 0
T 1 12 1 0
T 2 0 1 0
T 3 0 1 0
end
|a write that has two tries looks again>
clay 1
code 2 2 1
tries 2
client
put a fill:00:8
write a 0 hex:01
client
write a 1 hex:02
get a
schedule
c 0*12
c 1
drain
end
>
H 0 c0.0 ok
H 1 c0.1 ok
H 2 c1.0 ok
H 3 c1.1 bytes hex:0102000000000000
L a 8
G c0.1 4 4 0 0
G c1.0 8 8 0 0
G c1.1 4 4 0 0
T 0 16 1 0
T 1 16 1 0
T 2 0 1 0
T 3 0 1 0
end
";

// Puts that are left by their client or given up by the operator.
pub const GIVEN_UP: &[u8] = b"\
a put is left before its commit, and reaped>
client
leave 6
put a hex:0100000000000000
client
get a
schedule
c 0*6
c 1
reap c 0
drain
end
>
H 0 c1.0 nosuch
O c0.0
T 0 0 0 0
T 1 0 0 0
T 2 0 0 0
T 3 0 0 0
end
|a put is left after its commit>
client
leave 7
put a hex:0100000000000000
client
get a
schedule
c 0*7
drain
end
>
H 0 c0.0 open
H 1 c1.0 bytes hex:0100000000000000
O c0.0
L a 8
G c1.0 4 4 0 0
T 0 4 1 0
T 1 4 1 0
T 2 0 1 0
T 3 0 1 0
end
|a put is reaped between its prepares, and what it prepared is swept>
client
put a hex:0100000000000000
schedule
c 0*3
reap c 0
s*6
drain
end
>
X c0.0 reaped 0
T 0 0 0 0
T 1 0 1 0
T 2 0 1 0
T 3 0 1 0
end
";
