//! Calls with their answers, by the layer that they are of, and words of errors.

mod captures;
mod cases;
mod causes;
mod heaps;
mod mbufs;
mod memory;
mod models;
mod pools;
mod regions;
mod rings;
mod routes;
mod zones;
