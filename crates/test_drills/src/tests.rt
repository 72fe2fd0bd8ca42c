mod boots;
mod counted;
mod drawn;
mod store;
