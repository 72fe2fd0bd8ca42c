mod alike;
mod boards;
mod sessions;
mod trees;
