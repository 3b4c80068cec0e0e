//! Bytes, one after another.
ghost use Rattle.std.specs.Prelude.{◌≡◌};
ghost use Rattle.minus_view.specs.Prepared.{IsPlain};

use super::begun::Begun;
use super::{Place, Preparation};
use crate::shown::is_control;
use std::alloc::AllocError;

impl Preparation {
    // One byte.
    pub(super) fn byte(&mut self, byte: u8) -> Result<(), AllocError> {
        match self.place {
            Place::Text => self.first(byte),
            Place::Returned => {
                if byte != b'\n' {
                    self.control(b'\r')?;
                }
                self.first(byte)
            }
            Place::Character {
                code,
                least,
                left,
                begun,
            } => self.further(code, least, left, begun, byte),
            Place::Escape => self.after_escape(byte),
            Place::Numbers => self.in_numbers(byte),
            Place::Sequence => self.in_sequence(byte),
            Place::Command => self.in_command(byte),
            Place::CommandEscape => self.after_command(byte),
            Place::Link => self.in_link(byte),
            Place::LinkEscape => self.after_link(byte),
            Place::Designation => self.in_designation(byte),
        }
    }

    // The first byte of something.
    pub(super) fn first(&mut self, byte: u8) -> Result<(), AllocError> {
        self.place = Place::Text;
        match byte {
            b'\n' => return self.newline(),
            b'\t' => return self.tab(),
            b'\r' => self.place = Place::Returned,
            8 if self.held.is_some() => self.is_back = true,
            0x1B => self.place = Place::Escape,
            0x20..=0x7E => return self.character(char::from(byte)),
            0..=0x7F => return self.control(byte),
            0xC2..=0xDF => self.begin(byte, byte & 0x1F, 0x80, 1),
            0xE0..=0xEF => self.begin(byte, byte & 0x0F, 0x800, 2),
            0xF0..=0xF4 => self.begin(byte, byte & 0x07, 0x1_0000, 3),
            _ => return self.stray(byte),
        }
        Ok(())
    }

    // A character of several bytes begins.
    fn begin(&mut self, byte: u8, bits: u8, least: u32, left: u8) {
        self.place = Place::Character {
            code: u32::from(bits),
            least,
            left,
            begun: Begun::new(byte),
        };
    }

    // The bytes of a character that is none, shown.
    fn broken(&mut self, begun: Begun) -> Result<(), AllocError> {
        for place in 0..4 {
            if let Some(byte) = begun.at(place) {
                self.stray(byte)?;
            }
        }
        Ok(())
    }

    // A further byte of a character.
    fn further(
        &mut self,
        code: u32,
        least: u32,
        left: u8,
        begun: Begun,
        byte: u8,
    ) -> Result<(), AllocError> {
        if !(0x80..=0xBF).contains(&byte) {
            self.broken(begun)?;
            return self.first(byte);
        }
        let begun = begun.with(byte);
        let code = code
            .saturating_mul(64)
            .saturating_add(u32::from(byte & 0x3F));
        if left > 1 {
            self.place = Place::Character {
                code,
                least,
                left: left - 1,
                begun,
            };
            return Ok(());
        }
        self.place = Place::Text;
        match char::from_u32(code) {
            Some(c) if code >= least && !is_control(c) => self.character(c),
            _ => self.broken(begun),
        }
    }

    // Ends what was begun, but the held character.
    pub(super) fn end(&mut self) -> Result<(), AllocError>
        ensures plain { IsPlain self.old → self.new ≡ self.old }
    {
        match self.place {
            Place::Text => return Ok(()),
            Place::Character { begun, .. } => self.broken(begun)?,
            Place::Returned => self.control(b'\r')?,
            _ => (),
        }
        self.place = Place::Text;
        Ok(())
    }
}
