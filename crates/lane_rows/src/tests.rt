mod cells;
mod formulas;
mod programs;
mod runs;
