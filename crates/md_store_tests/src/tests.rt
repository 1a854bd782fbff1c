// What no clause says: worked listings, and worked changes of the names of a store; that threads that step and list meet, that a listing
// enters anew, and each refusal once.
mod acts;
mod alone;
mod crowd;
mod fixtures;
mod gated;
mod locked;
mod memory;
mod names;
mod passes;
mod scene;
mod stages;
mod stampede;
mod threads;
mod views;
