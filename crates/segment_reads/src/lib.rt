//! What a query reads of the files of segments: how many documents are looked at, which bytes these
//! are, and the laws of reads that are made one after the other.
#![tactic(auto)]
