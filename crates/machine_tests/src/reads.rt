//! Each end of a get, a read and a stat.

// A get takes from the data chunks alone. A read takes the subchunks that it meets: of 6 to 10 the last two of the first
// stripe's second chunk, and the first two of the next stripe. Of one lost chunk the repair layers of the three others are
// taken, beside the other data chunk; of two the two that are left are taken whole.
pub const READS: &[u8] = b"\
gets, reads and stats are answered>
client
get a
read a 0 0
stat a
put a ramp:01:16
get a
read a 6 4
read a 13 100
read a 3 0
read a 16 0
read a 17 1
stat a
schedule
drain
end
>
H 0 c0.0 nosuch
H 1 c0.1 nosuch
H 2 c0.2 nosuch
H 3 c0.3 ok
H 4 c0.4 bytes hex:0102030405060708090a0b0c0d0e0f10
H 5 c0.5 bytes hex:0708090a
H 6 c0.6 bytes hex:0e0f10
H 7 c0.7 bytes hex:
H 8 c0.8 bytes hex:
H 9 c0.9 outrange
H 10 c0.10 length 16
L a 16
G c0.4 8 8 0 0
G c0.5 2 2 0 0
G c0.6 0 3 0 0
T 0 10 2 0
T 1 13 2 0
T 2 0 2 0
T 3 0 2 0
end
|a reap is told at the end of the pass, when all bytes have come>
client
put a ramp:01:8
client
get a
schedule
c 0*11
c 1
reap c 1
drain
end
>
H 0 c0.0 ok
X c1.0 reaped 2
L a 8
G c1.0 4 4 0 0
T 0 4 1 0
T 1 4 1 0
T 2 0 1 0
T 3 0 1 0
end
";
