// The walk at a course as small as can be, over readers and writers in memory.
ghost use Rattle.std.specs.Prelude.{◌≡◌, refl, eqb};
ghost use Rattle.course.specs.Dots.{other, dots, dots_laws};

use crate::{Course, fill, print, run};
use report::Page;
use sheet::{Request, next_request};
use std::test::Fail;

#[tactic(auto, unfolding(crate::specs::Dots::other))]
fn is_dotted(request: Request) -> bool
    ensures { result ≡ eqb (other request) 0 }
{
    matches!(request, Request::Motor { .. } | Request::Input { .. })
}

#[derive(Clone, Copy)]
struct Dots {
    at: usize,
}

impl Course for Dots {
    ghost walk = { dots (λ d. d.at) };

    ghost MOST_PUT = { 1 };

    const MOST_PUT: usize = 1;

    fn begin(file: &[u8], page: &mut Page) -> Dots {
        if 65536 < file.len() {
            page.byte(b'!');
            return Dots { at: file.len() + 1 };
        }
        Dots { at: 0 }
    }

    fn at(&self) -> usize {
        self.at
    }

    // It takes no scan.
    fn scans(&mut self, _file: &[u8], _page: &mut Page) {}

    fn line(&mut self, file: &[u8], page: &mut Page) {
        let Some((request, next)) = next_request(file, self.at) else {
            self.at = file.len() + 1;
            return;
        };
        if is_dotted(request) {
            page.byte(b'.');
            self.at = next;
        } else {
            page.byte(b'!');
            self.at = file.len() + 1;
        }
    }

    ghost most_put = { refl };

    ghost laws = { dots_laws (λ d. d.at) };
}

#[test]
fn prints_a_dot_a_line(rt: HostRuntime) -> Result<(), Fail> {
    let mut out = Vec::new(rt.alloc());
    run::<Dots, &[u8], Vec<u8>>(
        rt.alloc(),
        b"M,1,193,0,500,300\nI,1,32\nI,1,16\n".as_slice(),
        &mut out,
    )?;
    assert_eq!(rt; out.as_slice(), b"...".as_slice());
    Ok(())
}

#[test]
fn stops_at_the_first_scan(rt: HostRuntime) -> Result<(), Fail> {
    let mut out = Vec::new(rt.alloc());
    print::<Dots, Vec<u8>>(b"I,1,32\nS,100\nI,1,16\n", &mut out)?;
    assert_eq!(rt; out.as_slice(), b".!".as_slice());
    Ok(())
}

#[test]
fn refuses_a_long_file(rt: HostRuntime) -> Result<(), Fail> {
    let file = [10u8; 65537];
    let mut out = Vec::new(rt.alloc());
    run::<Dots, &[u8], Vec<u8>>(rt.alloc(), file.as_slice(), &mut out)?;
    assert_eq!(rt; out.as_slice(), b"!".as_slice());
    Ok(())
}

#[test]
fn fills_a_page_and_goes_on(rt: HostRuntime) {
    let file = b"I,1,32\nI,1,16\nI,1,32\n";
    let mut bytes = [0u8; 2];
    let mut page = Page::new(&mut bytes);
    let mut here = Dots::begin(file, &mut page);
    fill(&mut here, file, &mut page);
    assert_eq!(rt; (here.at(), page.used()), (14, 2));
    let mut page = Page::new(&mut bytes);
    fill(&mut here, file, &mut page);
    assert_eq!(rt; (here.at(), page.used()), (22, 1));
}
