mod files;
mod numbers;
mod outputs;
mod texts;
