// A program with its arguments, which keeps what it prints.
use super::*;
use std::cell::Cell;
use std::env::FillError;
use std::fmt::Display;
use std::test::Fail;

#[derive(Drop)]
struct Program<'a> {
    rt: &'a HostRuntime,
    arguments: &'static [&'static str],
    printed: Cell<String>,
}

impl Env for Program<'_> {
    fn arg(&self, i: usize, buf: &mut [u8]) -> Result<usize, FillError> {
        let Some(text) = self.arguments.get(i) else {
            return Err(FillError::NotPresent);
        };
        let bytes = text.as_bytes();
        let Some(front) = buf.get_mut(..bytes.len()) else {
            return Err(FillError::TooLong);
        };
        front.copy_from_slice(bytes);
        Ok(bytes.len())
    }

    fn var(&self, _name: &str, _buf: &mut [u8]) -> Result<usize, FillError> {
        Err(FillError::NotPresent)
    }

    fn var_at(&self, _i: usize, _buf: &mut [u8]) -> Result<usize, FillError> {
        Err(FillError::NotPresent)
    }
}

impl Print for Program<'_> {
    fn print<D: Display + Drop>(&self, value: D) -> io::Result<()> {
        let mut printed = self.printed.replace(String::new(self.rt.alloc()));
        printed.push_str(value.to_string(self.rt.alloc())?.as_str())?;
        self.printed.set(printed);
        Ok(())
    }

    fn println<D: Display + Drop>(&self, value: D) -> io::Result<()> {
        self.print(value)?;
        self.print("\n")
    }

    fn write_all(&self, _bytes: &[u8]) -> io::Result<()> {
        Err(io::Error::from(io::ErrorKind::Unsupported))
    }
}

impl Program<'_> {
    // The program as it is started with the arguments.
    fn started<'a>(rt: &'a HostRuntime, arguments: &'static [&'static str]) -> Program<'a> {
        Program {
            rt,
            arguments,
            printed: Cell::new(String::new(rt.alloc())),
        }
    }
}

fn checksum(first: u32, row: u8, repeats: u32) -> u32 {
    first
        .wrapping_add(100 * u32::from(row))
        .wrapping_add(repeats.wrapping_mul(10))
}

struct FromSeven;

impl Rows for FromSeven {
    fn work(row: u8, repeats: u32) -> u32 {
        checksum(7, row, repeats)
    }
}

#[test]
fn works_rows_by_a_closure_and_by_a_trait(rt: HostRuntime) -> Result<(), Fail> {
    let started: [(&'static [&'static str], &str); 5] = [
        (&["program"], "3 317\n4 417\n5 517\n"),
        (&["program", "4"], "3 317\n4 417\n5 517\n"),
        (&["program", "4", "60"], "1007\n"),
        (&["program", "6", "60"], ""),
        (&["program", "260", "60"], ""),
    ];
    let first = 7u32;
    for (arguments, want) in started {
        let program = Program::started(&rt, arguments);
        work_rows(&program, 3..6, |row, repeats| checksum(first, row, repeats))?;
        assert_eq!(rt; program.printed.into_inner().as_str(), want, "by a closure");
        let program = Program::started(&rt, arguments);
        work_rows_of::<FromSeven, _>(&program, 3..6)?;
        assert_eq!(rt; program.printed.into_inner().as_str(), want, "by a trait");
    }
    Ok(())
}
