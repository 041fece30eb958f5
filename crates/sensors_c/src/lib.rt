// The sensor block as a static library, for programs in Rust or C: `combine` of `sensors`, with numbers in place of its structs.
#![tactic(auto, unfolding(crate::specs::Numbers::opened))]

ghost use Rattle.std.specs.Prelude.{◌≡◌, ◌≤◌};
ghost use Rattle.sensors.specs.Sensors.{answer_of, counted, refusal_of};
ghost use Rattle.sensors_c.specs.Numbers.{sensors_of, number_of_flags, flags_after, value_after};

use sensors::{Answer, Sensors, Value};
use words::has;

fn counted(test: bool) -> u32
    ensures count { result ≡ counted test }
    ensures most { result ≤ 1 }
{
    if test { 1 } else { 0 }
}

fn number_of_flags(answer: Answer) -> u32
    ensures { result ≡ number_of_flags answer }
{
    let flags = answer.flags;
    let own = 4 * counted(flags.first) + 8 * counted(flags.second) + 16 * counted(flags.third);
    let known = match answer.value {
        Value::Known(_) => 32,
        Value::Absent => 0,
    };
    counted(flags.error) + 2 * counted(flags.mismatch) + own + known
}

/// The answer of three sensors: rule 11. Bits 0 to 2 of `marks` mark the readings of sensors 1 to 3, and its other bits have no effect. 0
/// comes back, or 11 where the call is refused. `flags` is left with the flags Y1 to Y5 in bits 0 to 4, and with bit 5 where there is a
/// value; where the call is refused it is left 0. `value` is left with the value, or as it was where there is none.
///
/// In C: `uint32_t sensors_combine(float first, float second, float third, float limit, uint32_t marks, uint32_t options, float *value,
/// uint32_t *flags)`, where the pointers point to two variables that hold something.
#[unsafe(no_mangle)]
pub extern "C" fn sensors_combine(
    first: f32,
    second: f32,
    third: f32,
    limit: f32,
    marks: u32,
    options: u32,
    value: &mut f32,
    flags: &mut u32,
) -> u32
    ensures number { result ≡ refusal_of (sensors_of first second third limit marks) }
    ensures flags { flags.new ≡ flags_after (answer_of (sensors_of first second third limit marks) options) }
    ensures value { value.new ≡ value_after value.old (answer_of (sensors_of first second third limit marks) options) }
{
    let sensors = Sensors {
        first,
        second,
        third,
        limit,
        first_marked: has(marks, 0),
        second_marked: has(marks, 1),
        third_marked: has(marks, 2),
    };
    match sensors::combine(sensors, options) {
        Ok(answer) => {
            *flags = number_of_flags(answer);
            if let Value::Known(x) = answer.value {
                *value = x;
            }
            0
        }
        Err(refusal) => {
            *flags = 0;
            refusal as u32
        }
    }
}
