mod board;
mod choosing;
mod expected;
mod resets;
mod settings;
