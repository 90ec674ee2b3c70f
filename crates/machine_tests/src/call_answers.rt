//! Worked scripts of answers and refusals.

// Replies of the plain map, and what was taken for them.
pub const ANSWERS: &[u8] = b"\
no actor>
clay 1
code 2 2 1
schedule
end
>
T 0 0 0 0
T 1 0 0 0
T 2 0 0 0
T 3 0 0 0
end
|a client without calls>
clay 1
code 3 2 4
client
schedule
drain
end
>
T 0 0 0 0
T 1 0 0 0
T 2 0 0 0
T 3 0 0 0
T 4 0 0 0
end
|an empty object has no stripe>
clay 1
code 2 2 1
client
put e fill:00:0
get e
read e 0 0
read e 1 0
schedule
drain
end
>
H 0 c0.0 ok
H 1 c0.1 bytes hex:
H 2 c0.2 bytes hex:
H 3 c0.3 outrange
L e 0
T 0 0 0 0
T 1 0 0 0
T 2 0 0 0
T 3 0 0 0
end
|an object is replaced>
clay 1
code 3 2 4
client
put b hex:ff
put a hex:00
put b hex:0102
get b
schedule
drain
end
>
H 0 c0.0 ok
H 1 c0.1 ok
H 2 c0.2 ok
H 3 c0.3 bytes hex:0102
L b 2
L a 1
G c0.3 1 0 0 0 0
T 0 1 2 0
T 1 0 2 0
T 2 0 2 0
T 3 0 2 0
T 4 0 2 0
end
|contents by a rule>
clay 1
code 3 2 4
client
put a ramp:fe:4
put b fill:a0:3
get a
get b
schedule
drain
end
>
H 0 c0.0 ok
H 1 c0.1 ok
H 2 c0.2 bytes hex:feff0001
H 3 c0.3 bytes hex:a0a0a0
L a 4
L b 3
G c0.2 1 0 0 0 0
G c0.3 1 0 0 0 0
T 0 2 2 0
T 1 0 2 0
T 2 0 2 0
T 3 0 2 0
T 4 0 2 0
end
|an object that is deleted and put again is the last>
clay 1
code 3 2 4
client
put b fill:00:1
put a fill:00:3
put b hex:
delete a
put a fill:00:2
schedule
drain
end
>
H 0 c0.0 ok
H 1 c0.1 ok
H 2 c0.2 ok
H 3 c0.3 ok
H 4 c0.4 ok
L b 0
L a 2
T 0 0 1 0
T 1 0 1 0
T 2 0 1 0
T 3 0 1 0
T 4 0 1 0
end
";
