// A file for the bench, rule 7: its lines, the numbers in their fields, and the requests that lines make. What is read
// is defined in specs/, for every list of bytes; every function exported here is equal to its definition on any input.
// A file and a place in it are two parameters side by side, and no slice from there on, since the answers are places in the file.
#![tactic(auto)]

mod lines;
mod numbers;
mod quick;
mod requests;
mod word_fields;

pub use lines::next_line;
pub use numbers::read_number;
pub use quick::{is_at, next_request};
pub use requests::{accept, parse};
pub use word_fields::read_word;

// What stands at a place of a file: one of three, which `Option<Result<usize, _>>` would say no plainer.
#[derive(Clone, Copy)]
pub enum Line {
    // A line up to this place, where its LF stands.
    Until(usize),
    // A line that is empty, too long or lacks its LF.
    Refused,
    // Nothing: the file ends here.
    End,
}

// What a line asks for.
#[derive(Clone, Copy)]
pub enum Request {
    // M,number,OPS_1,OPS_2,W,U: by field, as its definition has it, and no `Settings`, since any number is read here
    Motor {
        number: u32,
        ops1: u32,
        ops2: u32,
        w: u32,
        u: u32,
    },
    // I,number,word
    Input {
        number: u32,
        word: u32,
    },
    // S,period
    Scan {
        period: u32,
    },
    // A line that makes no request. It is a case and no Err, since `requests_of` has one request for each line.
    Refused,
}
