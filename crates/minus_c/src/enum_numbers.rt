//! The numbers of enums, as they cross.
ghost use Rattle.std.specs.Prelude.{◌≡◌};
ghost use Rattle.minus_c.specs.EnumNumbers.{mode_of, line_numbers_of, exit_strategy_of, search_mode_of};
ghost use Rattle.minus_c.specs.EnumNumbers.{number_of_numbers, number_of_mode, io_of};

use minus::{ExitStrategy, IoCommand, LineNumbers, RunMode, SearchMode};

/// The mode of a number.
pub fn mode_of(number: u8) -> Option<RunMode>
    ensures { result ≡ mode_of number }
{
    match number {
        0 => Some(RunMode::Static),
        1 => Some(RunMode::Dynamic),
        _ => None,
    }
}

/// The line numbers of a number.
pub fn line_numbers_of(number: usize) -> Option<LineNumbers>
    ensures { result ≡ line_numbers_of number }
{
    match number {
        0 => Some(LineNumbers::AlwaysOn),
        1 => Some(LineNumbers::Enabled),
        2 => Some(LineNumbers::Disabled),
        3 => Some(LineNumbers::AlwaysOff),
        _ => None,
    }
}

/// The number of line numbers.
pub fn number_of_numbers(numbers: LineNumbers) -> u8
    ensures { result ≡ number_of_numbers numbers }
{
    match numbers {
        LineNumbers::AlwaysOn => 0,
        LineNumbers::Enabled => 1,
        LineNumbers::Disabled => 2,
        LineNumbers::AlwaysOff => 3,
    }
}

/// The strategy of a number.
pub fn exit_strategy_of(number: u8) -> Option<ExitStrategy>
    ensures { result ≡ exit_strategy_of number }
{
    match number {
        0 => Some(ExitStrategy::ProcessQuit),
        1 => Some(ExitStrategy::PagerQuit),
        _ => None,
    }
}

/// The direction of a number.
pub fn search_mode_of(number: usize) -> Option<SearchMode>
    ensures { result ≡ search_mode_of number }
{
    match number {
        0 => Some(SearchMode::Forward),
        1 => Some(SearchMode::Reverse),
        2 => Some(SearchMode::Unknown),
        _ => None,
    }
}

/// The number of a direction.
pub fn number_of_mode(mode: SearchMode) -> u8
    ensures { result ≡ number_of_mode mode }
{
    match mode {
        SearchMode::Forward => 0,
        SearchMode::Reverse => 1,
        SearchMode::Unknown => 2,
    }
}

/// The command of a number that asks for a drawing.
pub fn io_of(number: u8, argument: usize) -> Option<IoCommand>
    ensures { result ≡ io_of number argument }
{
    match number {
        0 => Some(IoCommand::RedrawPrompt),
        1 => Some(IoCommand::RedrawDisplay),
        2 => Some(IoCommand::SetUpperMark(argument)),
        3 => Some(IoCommand::FetchSearchQuery),
        _ => None,
    }
}
