mod modules;
mod reading;
mod rows;
mod writing;
