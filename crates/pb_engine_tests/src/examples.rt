//! The programs of `examples/`, by the engines: what is written is compared with what is expected.

mod calls;
mod first_examples;
mod forged_objects;
mod grading;
mod lesson_1;
mod lesson_2;
mod lesson_3;
mod lesson_4;
mod lesson_5;
mod lesson_6;
mod lesson_7;
mod lesson_8;
mod lesson_9;
mod limits;
mod replayed_solutions;
mod solutions;
