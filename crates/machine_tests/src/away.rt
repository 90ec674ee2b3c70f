//! Worked scripts with servers that are away.

// Servers that are away for a time.
pub const AWAY: &[u8] = b"\
a put skips a server that is away, and a get makes its chunk>
client
put a hex:0100000000000000
get a
schedule
down 0
c 0*11
up 0
drain
end
>
H 0 c0.0 ok
H 1 c0.1 bytes hex:0100000000000000
L a 8
G c0.1 0 6 2 2
T 0 0 0 0
T 1 6 1 0
T 2 2 1 0
T 3 2 1 0
end
|a put is refused where too many servers are away>
client
put a hex:0100000000000000
get a
schedule
down 0
down 1
down 2
drain
end
>
H 0 c0.1 nosuch
X c0.0 unavailable stripe 0 missing 0/u1/a1 1/u1/a1 2/u1/a1
T 0 0 0 0
T 1 0 0 0
T 2 0 0 0
T 3 0 0 0
end
|a get is served though one server is away and one was emptied>
client
put a hex:0100000000000000
get a
schedule
c 0*11
down 0
down 1
wipe 2
up 1
drain
end
>
H 0 c0.0 ok
H 1 c0.1 bytes hex:0100000000000000
L a 8
G c0.1 0 8 0 4
T 0 0 1 0
T 1 8 1 0
T 2 0 0 1
T 3 4 1 0
end
|a get is refused where two servers are away and one was emptied>
client
put a hex:0100000000000000
get a
schedule
c 0*11
down 0
down 1
wipe 2
drain
end
>
H 0 c0.0 ok
X c0.1 unavailable stripe 0 missing 0/0/a1 1/0/a1 2/0/1
L a 8
T 0 0 1 0
T 1 0 1 0
T 2 0 0 1
T 3 0 1 0
end
|a server that is away is not rebuilt>
client
put a hex:0100000000000000
repairer
rebuild a 0 0
schedule
c 0*11
down 0
drain
end
>
H 0 c0.0 ok
R r0.0 away 1
L a 8
T 0 0 1 0
T 1 0 1 0
T 2 0 1 0
T 3 0 1 0
end
";
