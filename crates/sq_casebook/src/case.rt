// A case: what a run is over.
use crate::texts::{push_items, push_line, setting, written_out};
use sq_gen::{Made, generate};
use sq_outside::{Flip, Swap};
use std::alloc::{AllocError, Global};

/// What goes wrong in a run: the calls that fail, and the gets of the disk that answer a byte wrongly, or another page.
#[derive(Drop)]
pub struct Faults {
    pub folder: Vec<u64>,
    pub out: Vec<u64>,
    pub err: Vec<u64>,
    pub disk: Vec<u64>,
    pub flips: Vec<Flip>,
    pub swaps: Vec<Swap>,
}

/// The words, the files and the faults of a run.
#[derive(Drop)]
pub struct Case {
    pub words: Vec<String>,
    pub files: Vec<(String, Vec<u8>)>,
    pub faults: Faults,
    /// How many bytes a call of a sink takes.
    pub takes: usize,
}

/// Which byte of a page is answered wrongly, if a case doesn't say.
const CHANGED: u32 = 17;

/// The words of a case, between commas.
pub fn words_of(case: &str) -> &str {
    setting(case, "words").unwrap_or("run,a.toml")
}

/// Puts the numbers of a setting at the end of a list.
fn push_numbers(numbers: &mut Vec<u64>, case: &str, key: &str) -> Result<(), AllocError> {
    for number in setting(case, key).unwrap_or("").split(',') {
        if let Ok(number) = number.parse::<u64>() {
            numbers.push(number)?;
        }
    }
    Ok(())
}

fn push_flips(flips: &mut Vec<Flip>, case: &str) -> Result<(), AllocError> {
    let byte = setting(case, "byte").unwrap_or("");
    let at = byte.parse::<u32>().unwrap_or(CHANGED);
    for get in setting(case, "flips").unwrap_or("").split(',') {
        if let Ok(get) = get.parse::<u64>() {
            flips.push(Flip { get, at })?;
        }
    }
    Ok(())
}

fn push_swaps(swaps: &mut Vec<Swap>, case: &str) -> Result<(), AllocError> {
    for get in setting(case, "swaps").unwrap_or("").split(',') {
        if let Ok(get) = get.parse::<u64>() {
            swaps.push(Swap { get })?;
        }
    }
    Ok(())
}

/// Puts a line of a file at the end of a text; one that ends in `\` has no end of line.
fn push_file_line(text: &mut String, line: &str) -> Result<(), AllocError> {
    match line.strip_suffix('\\') {
        Some(line) => text.push_str(line),
        None => push_line(text, line),
    }
}

/// What a file holds that has these lines.
fn text_of(alloc: Global, lines: &str) -> Result<String, AllocError> {
    let mut text = String::new(alloc);
    for line in lines.lines() {
        push_file_line(&mut text, line)?;
    }
    written_out(alloc, text.as_str())
}

impl Faults {
    fn none(alloc: Global) -> Faults {
        Faults {
            folder: Vec::new(alloc),
            out: Vec::new(alloc),
            err: Vec::new(alloc),
            disk: Vec::new(alloc),
            flips: Vec::new(alloc),
            swaps: Vec::new(alloc),
        }
    }

    /// Takes what a case says is to go wrong.
    fn take(&mut self, case: &str) -> Result<(), AllocError> {
        push_numbers(&mut self.folder, case, "folder fails")?;
        push_numbers(&mut self.out, case, "out fails")?;
        push_numbers(&mut self.err, case, "err fails")?;
        push_numbers(&mut self.disk, case, "disk fails")?;
        push_flips(&mut self.flips, case)?;
        push_swaps(&mut self.swaps, case)
    }
}

impl Case {
    /// Takes a file.
    fn push_file(&mut self, alloc: Global, name: &str, bytes: &[u8]) -> Result<(), AllocError> {
        let bytes = Vec::from_slice(alloc, bytes)?;
        self.files.push((written_out(alloc, name)?, bytes))?;
        Ok(())
    }

    /// Takes a file: its name, and then its lines.
    fn take_file(&mut self, alloc: Global, file: &str) -> Result<(), AllocError> {
        let (name, lines) = file.split_once('\n').unwrap_or((file, ""));
        let text = text_of(alloc, lines)?;
        self.push_file(alloc, name, text.as_bytes())
    }

    fn push_made(&mut self, alloc: Global, made: &Made) -> Result<(), AllocError> {
        self.push_file(alloc, "net.toml", made.net.as_slice())?;
        self.push_file(alloc, "trades.csv", made.stream.as_slice())?;
        self.push_file(alloc, "capacities.csv", made.capacities.as_slice())
    }

    /// Takes the files that are made of a number, and so many lines of a stream, which are 1 to 1,000,000.
    fn take_made(&mut self, alloc: Global, made: &str) -> Result<(), AllocError> {
        let (number, rows) = made.split_once(',').unwrap_or((made, ""));
        let number = number.parse::<u64>().unwrap_or(0);
        let rows = rows.parse::<u32>().unwrap_or(1).clamp(1, 1_000_000);
        let made = generate(alloc, number, rows)?;
        self.push_made(alloc, &made)
    }

    /// Takes the files of a case.
    fn take_files(&mut self, alloc: Global, case: &str) -> Result<(), AllocError> {
        for file in case.split("\n- ").skip(1) {
            self.take_file(alloc, file)?;
        }
        Ok(())
    }

    /// Takes what stands in the text of a case.
    fn take(&mut self, alloc: Global, case: &str) -> Result<(), AllocError> {
        push_items(&mut self.words, words_of(case))?;
        self.faults.take(case)?;
        self.take_files(alloc, case)?;
        match setting(case, "made") {
            Some(made) => self.take_made(alloc, made),
            None => Ok(()),
        }
    }

    /// The case of a text: settings, and then files.
    pub fn read(alloc: Global, text: &str) -> Result<Case, AllocError> {
        let takes = setting(text, "takes").unwrap_or("4096");
        let mut case = Case {
            words: Vec::new(alloc),
            files: Vec::new(alloc),
            faults: Faults::none(alloc),
            takes: takes.parse::<usize>().unwrap_or(1),
        };
        case.take(alloc, text)?;
        Ok(case)
    }
}
