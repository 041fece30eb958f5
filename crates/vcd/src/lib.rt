// The lines of a value change dump (IEEE 1364), rules 9.1 to 9.3, put into a page. What they are is defined in specs/Text.antt, and
// what a dump says to a reader in specs/Reader.antt.
#![tactic(auto)]

ghost use Rattle.std.specs.Prelude.{◌≡◌, [], ◌∷◌};
ghost use Rattle.report.specs.Puts.{Puts};
ghost use Rattle.vcd.specs.Wires.{name_of};
ghost use Rattle.vcd.specs.Text.{wire_line, frame_start, frame_end, time_line, digit_of, value_line};

use octets::LF;
use report::Page;

// The two outputs of a motor.
#[derive(Clone, Copy, Debug, PartialEq, Eq)]
pub enum Output {
    On,
    Off,
}

// The header before its wires, and after them: each its own text.
#[tactic(auto, unfolding(crate::specs::Opened::opened))]
pub fn put_frame_start(page: &mut Page)
    ensures { Puts page.old frame_start page.new }
{
    page.text(b"$timescale 1 ms $end\n$scope module bench $end\n")
}

#[tactic(auto, unfolding(crate::specs::Opened::opened))]
pub fn put_frame_end(page: &mut Page)
    ensures { Puts page.old frame_end page.new }
{
    page.text(b"$upscope $end\n$enddefinitions $end\n")
}

// The wire of an output of the motor of this number.
pub fn put_wire(page: &mut Page, output: Output, code: u8, number: u32)
    ensures { Puts page.old (wire_line (code ∷ []) (name_of output number)) page.new }
{
    page.text(b"$var wire 1 ");
    page.byte(code);
    page.text(b" m");
    page.number(number);
    match output {
        Output::On => page.text(b"on $end\n"),
        Output::Off => page.text(b"off $end\n"),
    }
}

// #time
pub fn put_time(page: &mut Page, time: u32)
    ensures { Puts page.old (time_line time) page.new }
{
    page.byte(b'#');
    page.number(time);
    page.byte(LF)
}

// 1 or 0, as it is written.
#[tactic(auto, unfolding(crate::specs::Opened::opened))]
fn digit(value: bool) -> u8
    ensures { result ≡ digit_of value }
{
    b'0' + u8::from(value)
}

// A signal's value.
#[tactic(auto, using(report::proofs::PutLaws::puts_then), unfolding(crate::specs::Opened::opened))]
pub fn put_value(page: &mut Page, code: u8, value: bool)
    ensures { Puts page.old (value_line (code ∷ []) value) page.new }
{
    page.byte(digit(value));
    page.byte(code);
    page.byte(LF)
}
