// Operations of the two scales, one to a line of standard input: each line is printed again with its results.
#![tactic(auto)]

use anyhow::{Context, bail, ensure};
use network::rating::Rating;
use scale::Scale;
use scale::billionths::{Billionth, Billionths};
use scale::nine_figures::{Decimal, NineFigures};
use std::fmt::Display;
use std::io::{BufRead, BufReader};
use std::str::Split;

// The words of a line that are still to be read.
#[derive(Drop)]
struct Words<'a>(Split<'a, char>);

impl<'a> Words<'a> {
    fn number(&mut self) -> anyhow::Result<u64> {
        let word = self.0.next().context("a number is missing")?;
        Ok(word.parse::<u64>()?)
    }

    fn small_number(&mut self) -> anyhow::Result<u32> {
        Ok(u32::try_from(self.number()?)?)
    }

    fn rating(&mut self) -> anyhow::Result<Rating> {
        let mantissa = self.small_number()?;
        let exponent = self.small_number()?;
        Rating::new(mantissa, exponent).context("no rating")
    }
}

// A scale whose numbers are read from words.
// Stays here: only this program makes numbers from text, and a TryFrom would be a promise of the scales.
trait ReadScale: Scale {
    fn read(words: &mut Words<'_>) -> anyhow::Result<Self::Num>;
}

impl ReadScale for Billionths {
    fn read(words: &mut Words<'_>) -> anyhow::Result<Billionth> {
        let units = words.number()?;
        ensure!(units <= 1_000_000_000, "no billionth");
        Ok(Billionth { units })
    }
}

impl ReadScale for NineFigures {
    fn read(words: &mut Words<'_>) -> anyhow::Result<Decimal> {
        let figures = words.number()?;
        let exponent = words.small_number()?;
        match (figures, exponent) {
            (0, 9) => Ok(NineFigures::zero()),
            (100_000_000, 8) => Ok(NineFigures::one()),
            (100_000_000..=999_999_999, 9..=60) => Ok(Decimal { figures, exponent }),
            _ => bail!("no number of nine figures"),
        }
    }
}

fn tell<S: ReadScale>(
    rt: &impl Print,
    line: &str,
    operation: &str,
    words: &mut Words<'_>,
) -> anyhow::Result<()>
where
    S::Num: Display,
{
    let x = S::read(words)?;
    match operation {
        "TIMES" => {
            let by = words.rating()?;
            println!(rt; "{line} = {} {}", S::times_down(x, by), S::times_up(x, by))?;
        }
        "SUM" => {
            let y = S::read(words)?;
            println!(rt; "{line} = {} {}", S::sum_down(x, y), S::sum_up(x, y))?;
        }
        "LESS" => println!(rt; "{line} = {}", S::less_down(x, S::read(words)?))?,
        "ORDER" => println!(rt; "{line} = {}", S::at_most(x, S::read(words)?))?,
        _ => bail!("no operation"),
    }
    Ok(())
}

fn work(rt: &impl Print, line: &str) -> anyhow::Result<()> {
    let mut words = Words(line.split(' '));
    let scale = words.0.next().context("no scale")?;
    let operation = words.0.next().context("no operation")?;
    match scale {
        "B" => tell::<Billionths>(rt, line, operation, &mut words),
        "N" => tell::<NineFigures>(rt, line, operation, &mut words),
        _ => bail!("no scale"),
    }
}

// Stays in each of the six programs that read lines: a function for it would take a closure that may fail, and be longer.
fn main(rt: HostRuntime) -> anyhow::Result<()> {
    BufReader::new(rt.alloc(), rt.stdin())?
        .lines(rt.alloc())
        .try_for_each(|line| work(&rt, line?.as_str()))
}
