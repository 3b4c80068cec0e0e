//! Tests of `minus_view`: keys as terminals send them, texts as they are prepared, styles, what a search
//! prompt needs, and the words of a program.
mod searching;
mod texts;
