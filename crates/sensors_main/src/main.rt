// Prints what the sensor block answers to the readings of some sheets, those of `given_sheets` among them. What it has to print (stdout)
// was marked from rule 11, apart from this program.
#![tactic(auto)]

ghost use Rattle.std.specs.Prelude.{IfSome};
ghost use Rattle.sensors.specs.Sensors.{value_of, IsWithin};

use sensors::{Answer, Sensors, Value};
use std::io;
use words::has;

// The readings of sensors 1 to 3, the limit, the marks in bits 0 to 2, and the option word.
const CASES: [(f32, f32, f32, f32, u32, u32); 63] = [
    // three trusted, and both differences pass: the middle one, by bit 5 the mean
    (10.0, 13.0, 12.0, 2.0, 0, 0),
    (10.0, 13.0, 12.0, 2.0, 0, 32),
    // equal readings, as 0 and -0 are, go by the sensors' numbers
    (0.0, -0.0, 5.0, 10.0, 0, 0),
    (-0.0, 0.0, 5.0, 10.0, 0, 0),
    (0.0, 5.0, -0.0, 10.0, 0, 0),
    (5.0, 0.0, -0.0, 10.0, 0, 0),
    (-0.0, 0.0, -0.0, 0.0, 0, 0),
    (-0.0, -0.0, -0.0, 0.0, 0, 32),
    // each order
    (1.0, 2.0, 3.0, 5.0, 0, 0),
    (3.0, 1.0, 2.0, 5.0, 0, 0),
    (2.0, 3.0, 1.0, 5.0, 0, 0),
    (3.0, 2.0, 1.0, 5.0, 0, 0),
    (1.0, 3.0, 2.0, 5.0, 0, 0),
    (2.0, 1.0, 3.0, 5.0, 0, 0),
    // a mean adds in sensor order, and can lie outside its readings
    (131072.0, 0.0078125, 0.0078125, 1000000.0, 0, 32),
    (0.0078125, 0.0078125, 131072.0, 1000000.0, 0, 32),
    (43.789787, 43.789787, 43.789787, 0.0, 0, 32),
    // the smallest and the largest numbers
    (1e-45, 1e-45, 1e-45, 0.0, 0, 32),
    (1000000.0, 1000000.0, 1000000.0, 0.0, 0, 32),
    (1.0, -1000000.0, 1000000.0, 3.4028235e38, 0, 0),
    // bits 6, 7 and 8 do not count, and no other bit ever does
    (10.0, 13.0, 12.0, 2.0, 0, 448),
    (10.0, 13.0, 12.0, 2.0, 0, 4294966814),
    // one difference fails, of each sensor; bits 0, 5 and 7 do not count
    (1.0, 11.0, 12.0, 2.0, 0, 161),
    (12.0, 1.0, 11.0, 2.0, 0, 0),
    (10.0, 11.0, 20.0, 2.0, 0, 0),
    (10.0, 11.0, 12.000001, 1.0, 0, 0),
    (7.0, 7.0, 1.0, 2.0, 0, 0),
    (1000000.0, 1000000.0, -1000000.0, 0.0, 0, 32),
    // both fail: with the flags of the outer two or, by bit 0, without; by bit 7 no value
    (1.0, 11.0, 30.0, 2.0, 0, 32),
    (11.0, 1.0, 30.0, 2.0, 0, 0),
    (11.0, 1.0, 30.0, 2.0, 0, 1),
    (1.0, 30.0, 11.0, 2.0, 0, 128),
    (1.0, 11.0, 30.0, 2.0, 0, 129),
    (1.0, 11.0, 30.0, 2.0, 0, 4294966814),
    (1e-45, 0.0, -1e-45, 0.0, 0, 0),
    // two trusted: the second of them, by bit 6 the first, by bit 5 or 8 their mean; bits 0 and 7 do not count
    (1.0, 2.0, 4.0, 5.0, 1, 0),
    (1.0, 2.0, 4.0, 1.0, 2, 193),
    (2.0, 1.0, f32::NAN, 0.5, 0, 256),
    (1.0, 2.0, 4.0, 3.0, 1, 96),
    (1.0, 2.0, 4.0, 3.0, 4, 320),
    (0.0, -0.0, f32::NAN, 0.0, 0, 64),
    (0.0, -0.0, f32::NAN, 0.0, 0, 0),
    (0.0, -0.0, f32::NAN, 0.0, 0, 256),
    (-0.0, -0.0, f32::NAN, 0.0, 0, 32),
    (1e-45, 0.0, f32::NAN, 1.0, 0, 32),
    (-1e-45, 0.0, f32::NAN, 1.0, 0, 32),
    (1e-45, 1e-45, f32::NAN, 0.0, 0, 32),
    // 1,000,000 is trusted either way, and the next number is not
    (1000000.0, -1000000.0, 1000000.0625, 1000000.0, 0, 32),
    // a difference of 65536.001953125 is rounded to 65536
    (65536.0, -0.001953125, f32::INFINITY, 65536.0, 0, 64),
    (65536.0, -0.001953125, -0.001953125, 65536.0, 0, 0),
    // one trusted, by bit 7 no value; none
    (f32::NEG_INFINITY, 2.0, -1000000.0625, 1.0, 0, 0),
    (f32::NAN, f32::NAN, 3.0, 1.0, 0, 33),
    (1.0, 2.0, 3.0, 1.0, 3, 0),
    (1.0, 2.0, 3.0, 1.0, 6, 0),
    (1.0, 2.0, 3.0, 1.0, 6, 128),
    (1.0, f32::NAN, 3.0, 1.0, 5, 0),
    (1.0, 2.0, 3.0, 1.0, 7, 0),
    // a limit below 0, infinite or NaN is refused, whatever else; -0 is not
    (f32::NAN, 2.0, 3.0, -1.0, 0, 0),
    (1.0, 2.0, 3.0, -1e-45, 0, 0),
    (1.0, 2.0, 3.0, f32::INFINITY, 0, 0),
    (1.0, 2.0, 3.0, f32::NEG_INFINITY, 7, 0),
    (1.0, 2.0, 3.0, f32::NAN, 0, 0),
    (3.0, 3.0, 3.0, -0.0, 0, 0),
];

// A value with its bits (those of NaN are not fixed), and the flags Y1 to Y5.
fn show_answer(rt: &impl Print, answer: Answer) -> io::Result<()>
    requires { IfSome (value_of answer.value) IsWithin }
{
    match answer.value {
        Value::Known(x) => print!(rt; "value {x} ({:08x})", x.to_bits())?,
        Value::Absent => print!(rt; "value none")?,
    }
    let flags = answer.flags;
    println!(rt;
        ", flags {} {} {} {} {}",
        u32::from(flags.error),
        u32::from(flags.mismatch),
        u32::from(flags.first),
        u32::from(flags.second),
        u32::from(flags.third)
    )
}

fn show(rt: &impl Print, case: (f32, f32, f32, f32, u32, u32)) -> io::Result<()> {
    let (first, second, third, limit, marks, options) = case;
    let sensors = Sensors {
        first,
        second,
        third,
        limit,
        first_marked: has(marks, 0),
        second_marked: has(marks, 1),
        third_marked: has(marks, 2),
    };
    print!(rt; "readings {first} {second} {third}, limit {limit}, ")?;
    print!(rt;
        "marks {} {} {}, options {options}: ",
        u32::from(sensors.first_marked),
        u32::from(sensors.second_marked),
        u32::from(sensors.third_marked)
    )?;
    match sensors::combine(sensors, options) {
        Ok(answer) => show_answer(rt, answer),
        Err(refusal) => println!(rt; "refused by {}", refusal as u32),
    }
}

fn main(rt: HostRuntime) -> io::Result<()> {
    for case in CASES {
        show(&rt, case)?;
    }
    Ok(())
}
