//! Tests of `minus_text`: worked texts with the rows and counts that they must have, and pushes in pieces.
mod counts;
mod formats;
mod pieces;
mod places;
mod screens;
mod searches;
mod shown;
mod styles;
