//! Each end of a put.

pub const PUTS: &[u8] = b"\
puts of several lengths, and chunks that stand until they are swept>
client
put a ramp:01:8
put a ramp:01:0
put a ramp:01:25
put a ramp:01:20
schedule
c 0*99
end
>
H 0 c0.0 ok
H 1 c0.1 ok
H 2 c0.2 toolarge
H 3 c0.3 ok
L a 20
T 0 0 4 0
T 1 0 4 0
T 2 0 4 0
T 3 0 4 0
end
|two servers may be away, and three not>
client
put a ramp:01:20
client
put a ramp:01:8
schedule
down 0
down 3
c 0*99
down 1
drain
end
>
H 0 c0.0 ok
X c1.0 unavailable stripe 0 missing 0/u1/a1 1/u1/a1 3/u1/a1
L a 20
T 0 0 0 0
T 1 0 3 0
T 2 0 3 0
T 3 0 0 0
end
|puts are reaped between look and draw, between draw and commit, and after the commit>
client
put a ramp:01:8
client
put a ramp:01:8
client
put a ramp:01:8
schedule
c 0
reap c 0
c 1*6
reap c 1
c 2*7
reap c 2
drain
end
>
H 2 c2.0 ok
X c0.0 reaped 0
X c1.0 reaped 1
L a 8
T 0 0 1 0
T 1 0 1 0
T 2 0 1 0
T 3 0 1 0
end
";
