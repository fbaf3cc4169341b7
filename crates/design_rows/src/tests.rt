mod changes;
mod rows;
mod texts;
