// The calls that reach outside: one read call, the write calls that take a text, and what is told of a failure on standard error. A call that
// was interrupted, or that a pipe asks to come back later, is made again. `Gave` and `Wrote` say that a call was made and what it moved: the
// programs' contracts rest on them, and only `read` and `write` can give them. Standard input is read, standard output and error are written; a call on
// any other descriptor fails.
#![tactic(auto)]

ghost use Rattle.std.specs.Prelude.{◌≤◌, ◌<◌, length, IfOk, IfErr};
ghost use Rattle.text_pipes.specs.Accounts.{standard_output, Asked, Put, Handed, taken};

use std::env::FillError;
use std::io::{Error, ErrorKind, Print, Read, Stderr, Stdin, Stdout, Write};
use std::rt::Env;

// the descriptors that a program is started with
pub const STDIN_FILENO: i32 = 0;

pub const STDOUT_FILENO: i32 = 1;

pub const STDERR_FILENO: i32 = 2;

// the system's number for a descriptor that is not open for such a call
const EBADF: i32 = 9;

// the leave to make calls on them
#[derive(Clone, Copy)]
pub struct Pipes {
    pub input: Stdin,
    pub output: Stdout,
    pub errors: Stderr,
}

// whether a call that answered so is to be made again: a signal came in between, or it would have had to wait
fn again(answer: &Result<usize, Error>) -> bool {
    match answer {
        Ok(_) => false,
        Err(e) => matches!(e.kind(), ErrorKind::Interrupted | ErrorKind::WouldBlock),
    }
}

// one read call on a descriptor, of which only standard input is read
fn read(pipes: Pipes, fd: i32, input: &mut [u8]) -> Result<usize, Error>
    ensures asked { Asked fd input.new result }
    ensures fits { IfOk result (λ n. n ≤ length input.new) }
{
    let mut stdin = pipes.input;
    match fd {
        STDIN_FILENO => stdin.read(input),
        _ => Err(Error::from_raw_os_error(EBADF)),
    }
}

// one write call on a descriptor, of which standard output and error are written
fn write(pipes: Pipes, fd: i32, bytes: &[u8]) -> Result<usize, Error>
    ensures took { Put fd bytes.now result }
    ensures fits { IfOk result (λ n. n ≤ length bytes.now) }
{
    let mut stdout = pipes.output;
    let mut stderr = pipes.errors;
    match fd {
        STDOUT_FILENO => stdout.write(bytes),
        STDERR_FILENO => stderr.write(bytes),
        _ => Err(Error::from_raw_os_error(EBADF)),
    }
}

// One read call on a descriptor: how many bytes it gave, 0 at the end of the input. Nothing says that interruptions end, so its turns are counted.
pub fn ask(pipes: Pipes, fd: i32, input: &mut [u8]) -> Result<usize, Error>
    ensures asked { Asked fd input.new result }
    ensures fits { IfOk result (λ n. n ≤ length input.new) }
{
    for _ in 1..u64::MAX {
        let got = read(pipes, fd, input);
        if !again(&got) {
            return got;
        }
    }
    read(pipes, fd, input)
}

// One write call on a descriptor: how many bytes it took. One loop with `ask` would take the call as a closure, which is no plainer.
fn put(pipes: Pipes, fd: i32, bytes: &[u8]) -> Result<usize, Error>
    ensures took { Put fd bytes.now result }
    ensures fits { IfOk result (λ n. n ≤ length bytes.now) }
{
    for _ in 1..u64::MAX {
        let took = write(pipes, fd, bytes);
        if !again(&took) {
            return took;
        }
    }
    write(pipes, fd, bytes)
}

// one write call on standard output
fn put_out(pipes: Pipes, bytes: &[u8]) -> Result<usize, Error>
    ensures took { Put standard_output bytes.now result }
    ensures fits { IfOk result (λ n. n ≤ length bytes.now) }
{
    put(pipes, STDOUT_FILENO, bytes)
}

// what stopped the writing of a text: a call took none of what was left behind the first `done` bytes, and why
#[derive(Drop)]
pub struct Unwritten {
    pub done: usize,
    pub why: Error,
}

// hands bytes to write calls on standard output, one after another, until all are taken or a call takes none
pub fn hand(pipes: Pipes, bytes: &[u8]) -> Result<(), Unwritten>
    ensures handed { Handed bytes.now (taken (length bytes.now) result) }
    ensures left { IfErr result (λ u. u.done < length bytes.now) }
{
    let mut done = 0;
    // it stays a `while`: each call says how far it came, and an iterator that is told so is no plainer
    while done < bytes.len() {
        match put_out(pipes, &bytes[done..]) {
            // no error says why: the system's number is then 0
            Ok(0) => {
                let why = Error::from_raw_os_error(0);
                return Err(Unwritten { done, why });
            }
            Ok(k) => done += k,
            Err(why) => return Err(Unwritten { done, why }),
        }
    }
    Ok(())
}

// says on standard error that a read call failed and that the line so far, of `len` bytes, is not answered
pub fn tell_unread(pipes: Pipes, len: usize, why: Error) {
    let errors = pipes.errors;
    let _ = eprintln!(errors;
        "reading failed behind {len} bytes of a line, which is not answered: {why}"
    );
}

// says on standard error that of a text of `all` bytes only those that were taken are written, and that nothing follows
pub fn tell_unwritten(pipes: Pipes, all: usize, left: Unwritten) {
    let Unwritten { done, why } = left;
    let errors = pipes.errors;
    let _ = eprintln!(errors;
        "writing failed behind {done} of {all} bytes: the last line may be cut, and the answers behind it are lost: {why}"
    );
}

// whether the program was started with any argument, as --help; then its use is written, and it ends
pub fn helped(rt: &(impl Env + Print), text: &[u8]) -> bool {
    let mut word = [0u8; 1];
    if let Err(FillError::NotPresent) = rt.arg(1, &mut word) {
        return false;
    }
    let _ = rt.write_all(text);
    true
}
