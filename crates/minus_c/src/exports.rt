//! What a program in another language calls, by themes.
pub mod input;
pub mod life;
pub mod output;
pub mod settings;
pub mod standing;
pub mod tables;
pub mod text;
