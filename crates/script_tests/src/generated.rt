//! Scripts that are drawn from numbers.
use clay_gen::generate;
use script_text::write_script;
use std::test::Fail;
use text_tables::fault_tables::same;

// Of 10007, by another program.
const ONE_CALL: &[u8] = b"\
clay 1
code 4 2 16
size 4096
client
write c 1061 ramp:ab:384
client
read d 2046 122
client
write e 1395 ramp:ca:152
client
write e 1100 ramp:62:263
repairer
schedule
c 3
r 0
s
c 0
s
c 0
c 0
c 0
drain
end
";

// Of 33764, by another program.
const FIVE_CALLS: &[u8] = b"\
clay 1
code 4 2 16
size 4096
client
delete f
write a 741 ramp:ea:462
read e 973 707
write b 1446 ramp:15:306
write b 282 ramp:0f:55
client
put a ramp:48:1798
delete e
write e 1411 ramp:ae:449
delete e
put a ramp:44:1647
client
stat d
put f ramp:0a:1039
write f 915 ramp:62:475
write f 1581 ramp:e5:135
write d 986 ramp:4f:67
client
write d 653 ramp:fe:276
put f ramp:2c:1603
write a 1048 ramp:29:439
write e 415 ramp:ec:364
get e
repairer
rebuild b 4 3
schedule
c 1
c 1
c 1
c 1
c 2
c 2
c 3
c 3
r 0
r 0
c 3
c 1
c 1
c 3
s
c 1
c 3
c 2
c 2
c 2
r 0
c 3
c 3
c 0
c 0
c 1
c 0
c 2
r 0
c 1
c 2
wipe 2
c 1
c 0
r 0
c 1
c 0
c 1
c 1
c 0
drain
end
";

// Of 41683, by another program.
const EIGHT_CALLS: &[u8] = b"\
clay 1
code 4 2 16
size 4096
client
write b 379 ramp:27:474
write a 973 ramp:d8:206
get a
put b ramp:e3:1773
write f 68 ramp:da:7
delete a
put b ramp:d4:2013
write d 1523 ramp:0e:51
client
put c ramp:55:1210
put d ramp:30:1419
put a ramp:c2:994
write b 102 ramp:5a:394
write e 1061 ramp:94:87
get d
write d 1268 ramp:10:42
put d ramp:e4:1795
client
put f ramp:7a:1895
get a
delete e
delete f
delete a
stat d
put d ramp:27:1508
delete e
client
get f
write b 993 ramp:64:265
read b 1469 282
delete c
put b ramp:aa:50
write e 1486 ramp:3a:326
read a 1996 785
stat a
repairer
rebuild e 4 4
rebuild d 2 1
schedule
c 0
c 3
c 2
c 1
c 2
c 0
c 2
c 1
c 0
c 1
c 2
c 3
c 3
c 1
wipe 4
c 3
c 0
c 3
c 1
c 2
c 3
c 3
c 2
c 1
c 3
c 1
c 0
c 3
c 3
c 0
c 3
c 3
c 2
c 0
c 2
c 3
c 0
c 2
c 3
wipe 3
c 0
c 3
c 3
wipe 4
c 2
wipe 5
c 0
c 0
c 0
c 0
c 2
c 3
c 3
c 2
r 0
c 0
c 3
wipe 3
c 3
c 1
c 0
c 0
c 0
c 1
drain
end
";

// Holds the script of a number against its text.
fn generates(rt: &impl AllocGlobal, start: u64, size: u32, text: &[u8]) -> Result<(), Fail> {
    if size > 4096 {
        return Err(Fail::from("too many calls"));
    }
    let script = generate(rt.alloc(), start, size)?;
    let written = write_script(rt.alloc(), &script)?;
    same(&written, text)
}

#[test]
fn generates_scripts(rt: HostRuntime) -> Result<(), Fail> {
    generates(&rt, 10007, 1, ONE_CALL)?;
    generates(&rt, 33764, 5, FIVE_CALLS)?;
    generates(&rt, 41683, 8, EIGHT_CALLS)
}
