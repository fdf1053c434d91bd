// The start of a program: its arguments are answered, or name the texts that it runs on.
use crate::arguments::{Kind, Operand, Scan, kind_at, scan_all};
use crate::status::Status;

// A program by its name, and the system that it runs on.
#[derive(Clone, Copy)]
pub struct Program<'a> {
    pub rt: &'a HostRuntime,
    pub name: &'a [u8],
}

// What a program is asked to do.
#[derive(Clone, Copy)]
pub struct Call<'a> {
    pub program: Program<'a>,
    // Whether it reports its status.
    pub reports: bool,
    pub first: Operand,
    pub second: Operand,
}

impl Program<'_> {
    // The option that decides.
    fn answer_option(self, help: &[u8], i: usize) -> Status {
        match kind_at(self.rt, i, false) {
            Kind::Help => self.put_help(help),
            Kind::Version => self.put_version(),
            _ => self.put_no_answer(self.say_argument(i, b" is no option; --help shows the usage")),
        }
    }

    // The operand behind those that are given.
    fn say_missing(self, operands: usize) -> Status {
        if operands == 0 {
            return self.say(b"NETWORK is missing; --help shows the usage");
        }
        self.say(b"PLAN is missing; --help shows the usage")
    }

    // What is wrong with the operands, as a message's status, or nothing.
    fn check_operands(self, least: usize, scan: Scan) -> Result<(), Status> {
        if let Some(i) = scan.extra {
            return Err(self.say_argument(i, b" is one argument too many; --help shows the usage"));
        }
        if scan.operands < least {
            return Err(self.say_missing(scan.operands));
        }
        if scan.first == Some(Operand::StandardInput)
            && scan.second == Some(Operand::StandardInput)
        {
            return Err(self.say(
                b"'-' stands for both texts; standard input can be read only once",
            ));
        }
        Ok(())
    }

    // What the arguments alone decide: that the program runs, or the status with which it ends.
    fn check_arguments(self, help: &[u8], least: usize, scan: Scan) -> Result<(), Status> {
        if let Some(i) = scan.decides {
            return Err(self.answer_option(help, i));
        }
        match self.check_operands(least, scan) {
            Ok(()) => Ok(()),
            Err(said) => Err(self.put_no_answer(said)),
        }
    }
}

// A program by its name, its own lines of help and the least and the most operands that it takes. Where it does not run, everything is
// said and reported.
pub fn begin<'a>(
    rt: &'a HostRuntime,
    name: &'a [u8],
    help: &[u8],
    least: usize,
    most: usize,
) -> Option<Call<'a>> {
    let program = Program { rt, name };
    let scan = scan_all(rt, most);
    let call = Call {
        program,
        reports: scan.reports,
        first: scan.first.unwrap_or(Operand::StandardInput),
        second: scan.second.unwrap_or(Operand::StandardInput),
    };
    match program.check_arguments(help, least, scan) {
        Ok(()) => Some(call),
        Err(status) => {
            call.finish(status);
            None
        }
    }
}
