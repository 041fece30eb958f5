// The steps of a scan that go by a motor's settings, status and input word alone: all but the sums and the output.
// Every function is defined for any settings, status and word, and for any number of a mode, position, command or end: these stand as in
// a record, which may hold any (their names: rules/specs/Record.antt), so that an enum would be made of them at each test. Settings,
// status, word, reading and whether the time is up go side by side, as the rules' definitions have them: a struct would be taken apart in
// each clause.
#![tactic(auto)]

pub mod choice;
pub mod command;
pub mod end;
pub mod faults;
pub mod issue;
pub mod mode;
pub mod switches;
