//! The commands `chunks`, `chunksd`, `recover` and `repaird`: stripes with their chunks, chunks that are left with all of them,
//! parts with the chunk that is lost; and data that are refused, with what is said of them.
use crate::tables::{ALONE, all_answer};
use std::test::Fail;

// The last stripe stands beside a virtual node.
const CHUNKS: &[u8] = b"\
chunks 2 2 1>0>4>\
0100000000000000>01000000\n00000000\n03a60000\n53000000\n\
|0000000001000000\n>00000000\n01000000\n02f50651\nf400a600\n\
|00000000000000Ff\n>00000000\n000000ff\n00000066\n0000cc1c\n\
|0000000000000000\n>00000000\n00000000\n00000000\n00000000\n\
#chunks 3 2 1>0>1>\
000000000000000000000000000000000000010000000000\r\n>\
0000000000000000\n0000000000000000\n0000010000000000\n0c5507f700000000\na400f50000000000\n\
#chunks 2 2 1>9>10>\
>data refused length\n\
|\n>data refused length\n\
|010000000000000>data refused hex\n\
|01000000000000000>data refused hex\n\
|010000000000000g>data refused hex\n\
|0100000000000000\r>data refused hex\n\
|0100000000000000\n\n>data refused hex\n\
|01000000\n00000000\n>data refused hex\n\
|01000000000000>data refused length\n\
|010000000000000000\n>data refused length\n";

// Of the first and the third stripe one chunk may be aloof. Of the second all other chunks help: it is a codeword of `chunks`.
const CHUNKS_WITH_FEWER_HELPERS: &[u8] = b"\
chunksd 2 3 3 1>0>1>\
0100000053000000a700000000000000>\
0100000053000000\na700000000000000\n0000000000000000\n0153000000000000\na700000000000000\n\
#chunksd 2 2 3 1>0>1>\
0100000000000000\n>01000000\n00000000\n03a60000\n53000000\n\
#chunksd 2 3 4 1>0>1>\
000000000000E00000000000000000000000\r\n>\
000000000000e00000\n000000000000000000\ndd7272000000c0c072\n390000000000600000\n390000000000390000\n\
#chunksd 2 3 3 1>9>4>\
>data refused length\n\
|01000000530000\n>data refused length\n\
|010000005300000\n>data refused hex\n\
|0100000053000000\na700000000000000\n>data refused hex\n";

// Of two codewords.
const RECOVERED: &[u8] = b"\
recover 2 2 1>0>6>\
-\n00000000\n-\n53000000\n>01000000\n00000000\n03a60000\n53000000\n\
|-\n-\n03a60000\n53000000\n>01000000\n00000000\n03a60000\n53000000\n\
|01000000\r\n-\r\n-\r\n53000000>01000000\n00000000\n03a60000\n53000000\n\
|01000000\n00000000\n03A60000\n53000000>01000000\n00000000\n03a60000\n53000000\n\
|-\n01000000\n-\nf400a600\n>00000000\n01000000\n02f50651\nf400a600\n\
|00000000\n01000000\n-\n-\n>00000000\n01000000\n02f50651\nf400a600\n\
#recover 2 2 1>9>14>\
>data refused length\n\
|\n\n\n\n\n>data refused length\n\
|-\n-\n03a60000\n>data refused length\n\
|-\n-\n03a60000\n53000000\n\n>data refused length\n\
|\n\n\n\n>data refused length\n\
|-\n-\n03a60000\n530000\n>data refused length\n\
|-\n-\n03a60000\n5300000\n>data refused hex\n\
|-\n-\n03a600\n5300000g\n>data refused hex\n\
|-\n- \n03a60000\n53000000\n>data refused hex\n\
|-\n-\n-\n53000000\r>data refused hex\n\
|-\n-\n-\n530000\n>data refused length\n\
|-\n-\n-\n53000000\n>data refused missing\n\
|-\n-\n-\n-\n>data refused missing\n\
|01000000\n00000000\n03a60000\n53000001\n>data refused disagree\n";

// A data chunk, then by another helper, with digits of either case and no last LF; a wider one; a parity chunk with one chunk aloof,
// and one with none. Refused are so many lines, before digits, before the bytes of a part, before the helpers: a chunk of the column
// of the lost one isn't there; the lost one is; a helper too few, and one too many.
const REPAIRED: &[u8] = b"\
repaird 2 3 3 1 0>0>2>\
-\na7000000\n00000000\n01530000\n-\n>0100000053000000\n\
|-\r\nA7000000\r\n-\r\n01530000\r\na7000000>0100000053000000\n\
#repaird 2 4 3 2 1>0>1>\
06200bd057c8e3e6\n-\n-\r\n5f2243ccc19aa09f\nbf3b7ba383c7d812\n-\n>8ba23d4a5d38f249c14f224334449741\n\
#repaird 2 3 3 1 4>0>1>\
3a69515d\n-\n078caebb\n0b78d69f\n-\n>67be7dbd163c0dae\n\
#repaird 2 2 3 1 3>0>1>\
b2d4\nc5f8\n8a5d\n-\n>dee9b493\n\
#repaird 2 3 3 1 0>9>10>\
>data refused length\n\
|-\nx\n00000000\n01530000\n>data refused length\n\
|-\na7000000\n00000000\n01530000\n-\n\n>data refused length\n\
|-\na7\n0\n01530000\n-\n>data refused hex\n\
|-\n-\n0000000g\n01530000\n-\n>data refused hex\n\
|-\n-\n000000\n01530000\n-\n>data refused length\n\
|-\n-\n00000000\n01530000\na7000000\n>data refused helpers\n\
|01000000\na7000000\n00000000\n-\n-\n>data refused helpers\n\
|-\na7000000\n00000000\n-\n-\n>data refused helpers\n\
|-\na7000000\n00000000\n01530000\na7000000\n>data refused helpers\n";

#[test]
fn chunks_are_made_and_recovered(rt: HostRuntime) -> Result<(), Fail> {
    all_answer(&rt, ALONE, 3, CHUNKS)?;
    all_answer(&rt, ALONE, 4, CHUNKS_WITH_FEWER_HELPERS)?;
    all_answer(&rt, ALONE, 2, RECOVERED)?;
    all_answer(&rt, ALONE, 5, REPAIRED)
}
