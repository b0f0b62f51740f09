//! How a text of any language is gone through, token by token, whatever comments stand between: lemmas for the laws of each language's
//! reader.
#![tactic(auto)]
