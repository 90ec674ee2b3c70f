//! Runs of scripts with losses, with servers that are away, with calls given up and with races. The operator makes its
//! lines in their order, each whenever its thread comes to it.
use crate::runs::runs_are_legal;
use std::test::Fail;

// Puts, writes, reads and rebuilds of two objects, while servers are emptied. Client 3 has no call, so the operator's
// lines on it do nothing: they let time pass.
const LOSSES: &[u8] = b"\
1>clay 1
code 3 2 4
client
|8>put a ramp:00:300
get a
write a 90 fill:aa:120
get a
read a 40 200
|1>client
|8>put b ramp:10:200
read b 5 150
write b 0 hex:0102
get b
delete b
|1>client
|8>get a
write a 100 fill:bb:8
get b
stat b
read a 0 96
|1>client
repairer
|10>rebuild a 0 0
rebuild a 1 3
rebuild b 0 1
rebuild a 3 2
|1>repairer
|10>rebuild b 1 4
rebuild a 2 0
rebuild b 0 3
|1>schedule
wipe 0
|60>reap c 3
|1>wipe 3
|60>reap c 3
|1>wipe 1
|60>reap c 3
|1>wipe 4
|60>reap c 3
|1>wipe 2
|60>reap c 3
|1>wipe 0
wipe 1
|60>reap c 3
|1>wipe 3
|60>reap c 3
|1>wipe 2
wipe 4
wipe 0
|60>reap c 3
|1>drain
end
";

// The same with servers that are made away and present again. One of them stays away.
const AWAY: &[u8] = b"\
1>clay 2
code 2 2 1
client
|8>put a ramp:00:30
get a
write a 9 fill:aa:12
get a
|1>client
|8>put b ramp:10:20
get a
write b 0 hex:0102
get b
delete b
|1>client
|8>get a
read a 0 8
write a 3 fill:bb:8
get b
|1>client
repairer
|10>rebuild a 0 0
rebuild a 1 3
rebuild b 0 1
rebuild a 2 2
|1>schedule
down 0
|30>reap c 3
|1>down 3
|30>reap c 3
|1>up 0
|30>reap c 3
|1>wipe 2
|30>reap c 3
|1>down 1
|30>reap c 3
|1>up 3
|30>reap c 3
|1>up 1
|30>reap c 3
|1>down 2
down 3
|30>reap c 3
|1>up 3
|30>reap c 3
|1>drain
end
";

// Calls that are given up, and two that are left by their clients. Client 4 has no call.
const GIVEN_UP: &[u8] = b"\
1>clay 1
code 2 2 1
client
|8>put a ramp:00:20
get a
write a 3 hex:0102
|1>client
|8>put a fill:02:16
write a 0 fill:03:8
get a
|1>client
leave 6
put a ramp:08:8
client
|8>get a
|1>leave 9
write a 4 hex:aabb
client
repairer
|10>rebuild a 0 0
rebuild a 1 1
|1>schedule
|12>reap c 0
reap c 4
reap c 4
reap c 4
reap c 4
reap c 4
reap c 1
reap c 4
reap c 4
reap c 4
reap c 4
wipe 1
reap r 0
reap c 4
reap c 4
reap c 3
reap c 4
reap c 4
reap c 2
wipe 0
reap c 4
reap c 4
|1>drain
end
";

// Writes of four clients to one object, which a fifth replaces and deletes.
const RACES: &[u8] = b"\
1>clay 1
code 2 2 1
tries 2
client
|6>put a fill:00:24
write a 0 hex:01
write a 8 hex:02
get a
delete a
|1>client
|10>write a 1 hex:11
write a 9 hex:12
get a
|1>client
|10>write a 2 hex:21
write a 10 hex:22
get a
|1>client
|10>write a 3 hex:31
write a 11 hex:32
get a
|1>client
|10>write a 4 hex:41
write a 12 hex:42
get a
|1>schedule
drain
end
";

#[test]
fn scripts_run_legally(rt: HostRuntime) -> Result<(), Fail> {
    runs_are_legal(&rt, "losses", LOSSES)?;
    runs_are_legal(&rt, "servers away", AWAY)?;
    runs_are_legal(&rt, "calls given up", GIVEN_UP)?;
    runs_are_legal(&rt, "races", RACES)
}
