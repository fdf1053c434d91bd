// The arguments of a program: options, and the operands that name its texts.
use std::env::FillError;
use std::rt::Env;

// What one argument is.
#[derive(Clone, Copy, PartialEq, Eq)]
pub enum Kind {
    Operand,
    StandardInput,
    OptionsEnd,
    Help,
    Version,
    Status,
    Unknown,
}

// What an operand names: standard input, or the file that an argument names.
#[derive(Clone, Copy, PartialEq, Eq)]
pub enum Operand {
    StandardInput,
    Argument(usize),
}

// The arguments as far as they are looked at.
#[derive(Clone, Copy)]
pub struct Scan {
    pub options_ended: bool,
    pub reports: bool,
    // The option that decides, by its number.
    pub decides: Option<usize>,
    // The count of operands. Of more than two the last takes the second's place.
    pub operands: usize,
    pub first: Option<Operand>,
    pub second: Option<Operand>,
    // The first operand too many, by its number.
    pub extra: Option<usize>,
}

fn kind_of(argument: &[u8], options_ended: bool) -> Kind {
    match argument {
        b"-" => Kind::StandardInput,
        [b'-', ..] if !options_ended => option_kind(argument),
        _ => Kind::Operand,
    }
}

// An argument before `--` that begins like an option.
fn option_kind(argument: &[u8]) -> Kind {
    match argument {
        b"--" => Kind::OptionsEnd,
        b"--help" => Kind::Help,
        b"--version" => Kind::Version,
        b"--status" => Kind::Status,
        _ => Kind::Unknown,
    }
}

// The kind of argument i. Its first bytes tell, as no option is longer.
pub fn kind_at(rt: &HostRuntime, i: usize, options_ended: bool) -> Kind {
    let mut front = [0u8; 16];
    match rt.arg(i, &mut front) {
        Ok(n) => kind_of(&front[..n], options_ended),
        Err(_) => kind_of(&front, options_ended),
    }
}

// Whether there is an argument i.
fn is_there(rt: &HostRuntime, i: usize) -> bool {
    let mut front = [0u8; 1];
    !matches!(rt.arg(i, &mut front), Err(FillError::NotPresent))
}

impl Scan {
    // Argument i as an operand of a program that takes so many at most.
    fn add_operand(&mut self, most: usize, i: usize, operand: Operand) {
        if self.operands < most {
            if self.operands == 0 {
                self.first = Some(operand);
            } else {
                self.second = Some(operand);
            }
            self.operands += 1;
        } else if self.extra.is_none() {
            self.extra = Some(i);
        }
    }

    // Argument i.
    fn add(&mut self, rt: &HostRuntime, most: usize, i: usize) {
        match kind_at(rt, i, self.options_ended) {
            Kind::Operand => self.add_operand(most, i, Operand::Argument(i)),
            Kind::StandardInput => self.add_operand(most, i, Operand::StandardInput),
            Kind::OptionsEnd => self.options_ended = true,
            Kind::Status => self.reports = true,
            Kind::Help | Kind::Version | Kind::Unknown => self.decides = Some(i),
        }
    }
}

// Every argument in turn, up to the first that decides.
pub fn scan_all(rt: &HostRuntime, most: usize) -> Scan {
    let mut scan = Scan {
        options_ended: false,
        reports: false,
        decides: None,
        operands: 0,
        first: None,
        second: None,
        extra: None,
    };
    for i in 1..usize::MAX {
        if !is_there(rt, i) {
            break;
        }
        scan.add(rt, most, i);
        if scan.decides.is_some() {
            break;
        }
    }
    scan
}
