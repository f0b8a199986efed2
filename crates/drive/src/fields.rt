use crate::fault::LineFault;
use console::{HexFault, read_decimal, read_hex};
use health::Report;
use std::alloc::Global;
use std::str::SplitAsciiWhitespace;

// The fields of a line, read from left to right.
#[derive(Drop)]
pub struct Fields<'a> {
    heap: Global,
    words: SplitAsciiWhitespace<'a>,
}

impl<'a> Fields<'a> {
    pub fn new(heap: Global, line: &'a str) -> Fields<'a> {
        Fields {
            heap,
            words: line.split_ascii_whitespace(),
        }
    }

    // The next field, where the line has one.
    pub fn next_word(&mut self) -> Option<&'a str> {
        self.words.next()
    }

    pub fn word(&mut self) -> Result<&'a str, LineFault> {
        self.words.next().ok_or(LineFault::MissingField)
    }

    // The line has no more fields.
    pub fn end(&mut self) -> Result<(), LineFault> {
        match self.words.next() {
            Some(_) => Err(LineFault::SurplusField),
            None => Ok(()),
        }
    }

    pub fn number(&mut self, most: u16) -> Result<u16, LineFault> {
        read_decimal(self.word()?.as_bytes(), most).ok_or(LineFault::NotANumber)
    }

    pub fn u16(&mut self) -> Result<u16, LineFault> {
        self.number(u16::MAX)
    }

    pub fn u8(&mut self) -> Result<u8, LineFault> {
        Ok(u8::try_from(self.number(0xff)?)?)
    }

    // 0 or 1. This and `link` have a match each: one function of both words and of the fault is no shorter.
    pub fn flag(&mut self) -> Result<bool, LineFault> {
        match self.word()? {
            "0" => Ok(false),
            "1" => Ok(true),
            _ => Err(LineFault::NotAFlag),
        }
    }

    pub fn link(&mut self) -> Result<bool, LineFault> {
        match self.word()? {
            "up" => Ok(true),
            "down" => Ok(false),
            _ => Err(LineFault::NotALink),
        }
    }

    // The bytes of the last field: none where the line has no more fields.
    pub fn bytes(&mut self) -> Result<Vec<u8>, LineFault> {
        let text = self.next_word().unwrap_or("");
        Ok(read_hex(self.heap, text.as_bytes())?)
    }

    // This many bytes as hex digits, or this fault.
    fn hex<const N: usize>(&mut self, otherwise: LineFault) -> Result<[u8; N], LineFault> {
        match read_hex(self.heap, self.word()?.as_bytes()) {
            Ok(bytes) => <[u8; N]>::try_from(bytes.as_slice()).map_err(|_| otherwise),
            Err(HexFault::NotHexPairs) => Err(otherwise),
            Err(HexFault::OutOfMemory) => Err(LineFault::Hex(HexFault::OutOfMemory)),
        }
    }

    // A Controller Status word: four hex digits.
    fn status(&mut self) -> Result<u16, LineFault> {
        Ok(u16::from_be_bytes(self.hex(LineFault::NotAStatus)?))
    }

    // A critical warning: two hex digits.
    fn warning(&mut self) -> Result<u8, LineFault> {
        Ok(u8::from_be_bytes(self.hex(LineFault::NotAWarning)?))
    }

    // STATUS TEMP USED SPARE WARNING
    pub fn report(&mut self) -> Result<Report, LineFault> {
        Ok(Report {
            status: self.status()?,
            temperature: self.u16()?,
            percentage_used: self.u8()?,
            available_spare: self.u8()?,
            critical_warning: self.warning()?,
        })
    }
}
