// The lines of a file, each with what is told about it.
use anyhow::anyhow;
use names::Refusal;
use std::str::FromStr;

// A file that is read line by line.
#[derive(Clone, Copy)]
pub struct Source<'a> {
    pub path: &'a str,
    pub text: &'a str,
}

// A line: the file that it stands in, its number from 1, and its text.
#[derive(Clone, Copy)]
pub struct Line<'a> {
    pub path: &'a str,
    pub number: usize,
    pub text: &'a str,
}

impl<'a> Line<'a> {
    // The word at a place, counted from 0.
    pub fn word(&self, place: usize) -> Option<&'a [u8]> {
        words::word(self.text.as_bytes(), place)
    }

    // The number that the word at a place writes.
    pub fn count<N: FromStr>(&self, place: usize) -> Option<N>
    where
        <N as FromStr>::Err: Drop,
    {
        number(self.word(place)?)
    }

    // Tells what is wrong with the line; the answer says it of the whole file.
    pub fn wrong<T>(&self, rt: &HostRuntime, what: &str, whole: &'static str) -> anyhow::Result<T> {
        eprintln!(rt; "{}:{}: {what}", self.path, self.number)?;
        Err(anyhow!("{whole}"))
    }

    // Tells why what the line asks for is refused.
    pub fn refused<T>(
        &self,
        rt: &HostRuntime,
        refusal: Refusal,
        whole: &'static str,
    ) -> anyhow::Result<T> {
        eprintln!(rt;
            "{}:{}: {refusal}: {}",
            self.path,
            self.number,
            refusal.remedy()
        )?;
        Err(anyhow!("{whole}"))
    }
}

// The number that a word writes.
pub fn number<N: FromStr>(word: &[u8]) -> Option<N>
where
    <N as FromStr>::Err: Drop,
{
    std::str::from_utf8(word).ok()?.parse::<N>().ok()
}
