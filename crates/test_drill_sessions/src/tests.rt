mod counted;
mod drawn;
