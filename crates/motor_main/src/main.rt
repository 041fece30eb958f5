// Runs scans like those of the sheets in docs/RULES.md, and each refusal of a single motor, through the open functions. That each check
// holds is proved, by computing it: `expect` asks for it.
#![tactic(auto)]

ghost use Rattle.std.specs.Prelude.{◌≡◌};
ghost use Rattle.rules.specs.Record.{fresh};
ghost use Rattle.rules.specs.Refusals.{one_after};

use motor::{accept, scan};
use refusals::Refusal;
use rules::{Motor, Settings};

// A fresh motor with the settings of the sheets after three scans.
fn after_three(a: u32, b: u32, c: u32, period: u32) -> Motor
    ensures { result ≡ one_after (one_after (one_after (fresh (record { ops1 = 193; ops2 = 0; w = 500; u = 300 })) a 100) b 100) c period }
{
    let s = Settings {
        ops1: 193,
        ops2: 0,
        w: 500,
        u: 300,
    };
    let fresh = motor::fresh(s);
    let first = scan(fresh, a, 100).unwrap_or(fresh);
    let second = scan(first, b, 100).unwrap_or(first);
    scan(second, c, period).unwrap_or(second)
}

#[tactic(auto, unfolding(rules::specs::Opened::opened))]
fn main() {
    // a confirmed command
    let m = after_three(32, 4128, 16, 100);
    check::expect((m.status.end == 1) & (m.status.position == 2) & (m.output.state == 0));
    // an overdue one
    let m = after_three(32, 4128, 32, 500);
    check::expect((m.status.end == 3) & (m.status.flags == 8192) & (m.sum == 0));
    // a displaced one
    let m = after_three(32, 4128, 416, 100);
    check::expect((m.status.end == 2) & (m.status.command == 2) & (m.output.state == 2));
    // a refused scan: no record comes with it, and the caller has its own still
    let m = after_three(32, 4128, 131072, 100);
    check::expect((m.status.command == 7) & (accept(m, 131072, 10000) == Err(Refusal::Word)));
    // the order of the refusals
    let m = after_three(32, 4128, 16, 100);
    let broken = Motor { sum: 600000, ..m };
    check::expect(accept(m, 131072, 10001) == Err(Refusal::Period));
    check::expect(accept(broken, 131072, 10001) == Err(Refusal::Record));
}
