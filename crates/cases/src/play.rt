// How a sheet's steps are run.
use crate::bench::{Parts, fresh};
use crate::print::{Given, show, text};
use crate::readout::{halves, near};
use crate::sheet::{Step, Word, decimal};
use alarms::Lines;
use calls::Call;
use dom::readout::tenths;
use dom::{Sample, signed_code};
use reads::{alarm_line, counter, stored, unsaved};
use settling::settle;
use store::Cut;
use xenpak::Module;

// The frames of port 5, device 1: an address, a write, a read, a read that then adds one to the address.
const ADDRESS_FRAME: u32 = 0x0286_0000;

const WRITE_FRAME: u32 = 0x1286_0000;

const READ_FRAME: u32 = 0x3284_0000;

const READ_INCREMENT_FRAME: u32 = 0x2284_0000;

// A lines call: in `levels` bit 2 is the signal, bit 1 the block, bit 0 the lanes.
fn lines(receive: u32, transmit: u32, levels: u32) -> Call {
    Call::Lines(Lines {
        receive: (receive % 0x1_0000) as u16,
        transmit: (transmit % 0x1_0000) as u16,
        signal: levels / 4 % 2 == 1,
        block: levels / 2 % 2 == 1,
        lanes: levels % 2 == 1,
    })
}

// A sample call of these codes.
fn sample(temperature: u16, bias: u16, transmit: u16, receive: u16) -> Call {
    Call::Sample(Sample {
        temperature: signed_code(temperature),
        bias,
        transmit,
        receive,
    })
}

// The call that a step makes, if it makes one.
fn call_of(step: Step) -> Option<Call> {
    let [first, second, third] = step.numbers;
    let code = (first % 0x1_0000) as u16;
    match step.word {
        Word::On => Some(Call::PowerOn),
        Word::Cut => Some(Call::Cut(Cut::Clean)),
        Word::Torn => Some(Call::Cut(Cut::Torn((first % 256) as u8))),
        Word::Pin => Some(Call::ResetPin),
        Word::Frame => Some(Call::Frame(first)),
        Word::Tick => Some(Call::Tick),
        Word::Lines => Some(lines(first, second, third)),
        Word::Temp => Some(sample(code, 0x4e20, 0x5000, 0x5000)),
        Word::Bias => Some(sample(0x1900, code, 0x5000, 0x5000)),
        Word::Transmit => Some(sample(0x1900, 0x4e20, code, 0x5000)),
        Word::Receive => Some(sample(0x1900, 0x4e20, 0x5000, code)),
        Word::Write => Some(Call::Frame(WRITE_FRAME + second % 0x1_0000)),
        Word::Walk => Some(Call::Frame(READ_INCREMENT_FRAME)),
        Word::Read | Word::Again => Some(Call::Frame(READ_FRAME)),
        _ => None,
    }
}

// How many times it is made.
fn times(step: Step) -> u32 {
    let [first, second, _] = step.numbers;
    match step.word {
        Word::Tick | Word::Again => decimal(first),
        Word::Walk => decimal(second),
        _ => 1,
    }
}

// The module after a call, whose answer is shown if it is asked for.
fn once(rt: &impl Print, m: Module, call: Call, asks: bool) -> Module {
    let outcome = call.on(m);
    if asks {
        show(rt, Given::from(outcome.answer));
    }
    outcome.next
}

// So many times the same call.
fn repeated(rt: &impl Print, mut m: Module, call: Call, n: u32, asks: bool) -> Module {
    for _ in 0..n {
        m = once(rt, m, call, asks);
    }
    m
}

// A step that makes a call; to write, read or walk, an address frame first. What a read or a walk gives is always shown.
fn called(rt: &impl Print, m: Module, step: Step, call: Call) -> Module {
    let n = times(step);
    let [first, _, _] = step.numbers;
    let address = Call::Frame(ADDRESS_FRAME + first % 0x1_0000);
    match step.word {
        Word::Write => repeated(rt, once(rt, m, address, false), call, n, step.asks),
        Word::Read | Word::Walk => repeated(rt, once(rt, m, address, false), call, n, true),
        _ => repeated(rt, m, call, n, step.asks),
    }
}

// A fresh module that is powered on, its first load done.
fn loaded(rt: &impl Print) -> Module {
    let powered = once(rt, fresh(rt), Call::PowerOn, false);
    repeated(rt, powered, Call::Tick, 256, false)
}

// The module settled within a budget of ticks.
fn settle_within(rt: &impl Print, m: Module, budget: u32) -> Module {
    let outcome = settle(m, budget);
    let given = match outcome.answer {
        Ok(ticks) => Given::Number(ticks as usize),
        Err(why) => Given::Refused(why),
    };
    show(rt, given);
    outcome.next
}

// The same module with so many data answers counted.
fn counted(mut m: Module, n: u32) -> Module {
    m.bus.counter = (n % 0x1_0000) as u16;
    m
}

// How many stored bytes are not their offset.
fn changed(m: Module) -> usize {
    (0..=255)
        .filter(|offset| stored(m, *offset) != *offset)
        .count()
}

// What a step has found that looks at the module, or at the readout.
fn look(m: Module, step: Step) -> Option<Given> {
    let [first, _, _] = step.numbers;
    match step.word {
        Word::Line => Some(Given::Number(usize::from(alarm_line(m)))),
        Word::Count => Some(Given::Number(usize::from(counter(m)))),
        Word::Stored => Some(Given::Stored(stored(m, (decimal(first) % 256) as u8))),
        Word::Unsaved => Some(match unsaved(m) {
            Ok(bytes) => Given::Unsaved(bytes),
            Err(why) => Given::Refused(why),
        }),
        Word::Changed => Some(Given::Number(changed(m))),
        Word::Tenths => Some(Given::Tenths(tenths(signed_code((first % 0x1_0000) as u16)))),
        Word::Near => Some(Given::Number(near() as usize)),
        Word::Halves => Some(Given::Number(halves() as usize)),
        Word::Unknown => Some(Given::Unknown),
        _ => None,
    }
}

// The module after a step; `parts` are those of the next making.
fn after(rt: &impl Print, m: Module, parts: Parts, step: Step) -> Module {
    let [first, _, _] = step.numbers;
    match step.word {
        Word::Make => parts.made(rt, (decimal(first) % 256) as u8, step.asks),
        Word::Fresh => fresh(rt),
        Word::Loaded => loaded(rt),
        Word::Settle => settle_within(rt, m, decimal(first)),
        Word::Counted => counted(m, decimal(first)),
        _ => {
            if let Some(call) = call_of(step) {
                return called(rt, m, step, call);
            }
            if let Some(given) = look(m, step) {
                show(rt, given);
            }
            m
        }
    }
}

// Plays a sheet, and writes it again with what its steps give.
pub fn play(rt: &impl Print, sheet: &[u8]) {
    let mut m = fresh(rt);
    let mut marked = m;
    let mut parts = Parts::RIGHT;
    let mut step = Step::NONE;
    for byte in sheet {
        step = step.fed(*byte);
        if step.ready {
            m = after(rt, m, parts, step);
            parts = parts.after(step);
            match step.word {
                Word::Mark => marked = m,
                Word::Back => m = marked,
                _ => {}
            }
            step = step.done();
        }
        text(rt, &[*byte]);
    }
}
