mod numbers;
mod programs;
