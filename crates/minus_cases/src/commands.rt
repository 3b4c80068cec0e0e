//! Commands of scripts, as the sessions and the pagers of cases take them.
use crate::kept::CaseKinds;
use minus::{CommandOf, InputOf, MinusError, PagerOf};
use minus_script::ScriptKinds;

/// The input of a session of cases that a line of a script stands for; none for what no line does.
pub(crate) fn input_of(input: InputOf<ScriptKinds>) -> Option<InputOf<CaseKinds>> {
    match input {
        InputOf::Command(command) => Some(InputOf::Command(command_of(command)?)),
        InputOf::Event(event) => Some(InputOf::Event(event)),
    }
}

// Such a command, none for what no line of a script asks for.
fn command_of(command: CommandOf<ScriptKinds>) -> Option<CommandOf<CaseKinds>> {
    match command {
        CommandOf::SetData(text) => Some(CommandOf::SetData(text)),
        CommandOf::AppendData(text) => Some(CommandOf::AppendData(text)),
        CommandOf::SetPrompt(text) => Some(CommandOf::SetPrompt(text)),
        CommandOf::SendMessage(text) => Some(CommandOf::SendMessage(text)),
        CommandOf::ShowPrompt(is_shown) => Some(CommandOf::ShowPrompt(is_shown)),
        CommandOf::SetLineNumbers(numbers) => Some(CommandOf::SetLineNumbers(numbers)),
        CommandOf::LineWrapping(wraps) => Some(CommandOf::LineWrapping(wraps)),
        CommandOf::SetMatchLines(matches) => Some(CommandOf::SetMatchLines(matches)),
        CommandOf::SetCarryStyle(carries) => Some(CommandOf::SetCarryStyle(carries)),
        CommandOf::FollowOutput(follows) => Some(CommandOf::FollowOutput(follows)),
        CommandOf::UserInput(event) => Some(CommandOf::UserInput(event)),
        _ => None,
    }
}

/// Lets a command wait in a pager; one that is none of a pager is refused by `BadMode`.
pub(crate) fn wait(
    pager: &mut PagerOf<CaseKinds>,
    command: CommandOf<CaseKinds>,
) -> Result<(), MinusError> {
    match command {
        CommandOf::SetData(text) => pager.set_text(&text),
        CommandOf::AppendData(text) => pager.push_str(&text),
        CommandOf::SetPrompt(text) => pager.set_prompt(text),
        CommandOf::SendMessage(text) => pager.send_message(text),
        CommandOf::ShowPrompt(is_shown) => pager.show_prompt(is_shown),
        CommandOf::SetLineNumbers(numbers) => pager.set_line_numbers(numbers),
        CommandOf::LineWrapping(wraps) => pager.horizontal_scroll(!wraps),
        CommandOf::SetMatchLines(matches) => pager.set_match_lines(matches),
        CommandOf::SetCarryStyle(carries) => pager.set_carry_style(carries),
        CommandOf::FollowOutput(follows) => pager.follow_output(follows),
        CommandOf::SetExitStrategy(strategy) => pager.set_exit_strategy(strategy),
        CommandOf::SetRunNoOverflow(is_on) => pager.set_run_no_overflow(is_on),
        CommandOf::AddExitCallback(callback) => pager.add_exit_callback(callback),
        CommandOf::AddHook(hook, id, callback) => pager.add_hook(hook, id, callback),
        CommandOf::RemoveHook(hook, id) => pager.remove_hook(hook, id),
        CommandOf::SetInputClassifier(keys) => pager.set_input_classifier(keys),
        CommandOf::IncrementalSearchCondition(shows) => {
            pager.set_incremental_search_condition(shows)
        }
        _ => Err(MinusError::BadMode),
    }
}
