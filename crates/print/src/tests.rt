// The walk at the bench program's own course, over a reader and a writer in memory.
use crate::Sitting;
use course::{Course, fill};
use report::Page;
use std::test::Fail;

#[test]
fn prints_a_file(rt: HostRuntime) -> Result<(), Fail> {
    let file = b"M,1,193,0,500,300\nI,1,32\nS,100\nI,1,4128\nS,100\n";
    let mut out = Vec::new(rt.alloc());
    course::run::<Sitting, &[u8], Vec<u8>>(rt.alloc(), file.as_slice(), &mut out)?;
    let print = b"R,1,1,2,1,0,0,0,0\nR,2,1,2,1,7,0,1,0\nT,1,1,0,0,0,1,0,0,0\n";
    assert_eq!(rt; out.as_slice(), print.as_slice());
    Ok(())
}

#[test]
fn stops_at_a_refused_line(rt: HostRuntime) -> Result<(), Fail> {
    let mut out = Vec::new(rt.alloc());
    course::print::<Sitting, Vec<u8>>(b"M,1,193,0,500,300\nI,2,0\nS,100\n", &mut out)?;
    assert_eq!(rt; out.as_slice(), b"E,2,10\n".as_slice());
    Ok(())
}

#[test]
fn takes_no_line_without_room(rt: HostRuntime) {
    let file = b"M,1,193,0,500,300\nS,100\n";
    let mut bytes = [0u8; 3231];
    let mut page = Page::new(&mut bytes);
    let mut here = Sitting::begin(file, &mut page);
    fill(&mut here, file, &mut page);
    assert_eq!(rt; (here.at(), page.used()), (0, 0));
}

#[test]
fn takes_all_lines_with_room(rt: HostRuntime) {
    let file = b"M,1,193,0,500,300\nS,100\n";
    let mut bytes = [0u8; 4000];
    let mut page = Page::new(&mut bytes);
    let mut here = Sitting::begin(file, &mut page);
    fill(&mut here, file, &mut page);
    assert_eq!(rt; (here.at(), page.used()), (25, 38));
}
