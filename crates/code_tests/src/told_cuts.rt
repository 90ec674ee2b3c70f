//! The cut that most of some shares are of.
use crate::expect_same;
use clay_aloof::AloofGeometry;
use share_files::HeaderRefusal;
use share_format::ShareHeader;
use share_run::{Head, header_of_share, is_of_cut, told_header};

// Shares 0 and 1 are of two files, 2 has no header, 3 is of the second file, and what stands in the place of 4 is another share 3.
#[test]
fn most_shares_tell_the_cut(rt: HostRuntime) {
    let geometry = AloofGeometry::new(2, 3, 3, 1).expect(&rt, "a code");
    let one = ShareHeader::new(geometry, 0, 5, 7);
    let other = ShareHeader::new(geometry, 1, 5, 8);
    let third: Head = Ok(header_of_share(&other, 3));
    let all: [Head; 5] = [Ok(one), Ok(other), Err(HeaderRefusal::Short), third, third];
    let two: [Head; 2] = [Ok(one), Ok(other)];
    let none: [Head; 1] = [Err(HeaderRefusal::Short)];
    expect_same(&rt, told_header(&all), Some(other));
    expect_same(&rt, told_header(&two), Some(one));
    expect_same(&rt, told_header(&none), None);
    expect_same(&rt, is_of_cut(&other, 3, &third), true);
    expect_same(&rt, is_of_cut(&other, 4, &third), false);
    expect_same(&rt, is_of_cut(&one, 3, &third), false);
}
