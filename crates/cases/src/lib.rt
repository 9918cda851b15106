#![tactic(auto)]

// The cases P1 to P12 of the customer's document, and those of the requests, on the six-person file.
// specs/ has the file's 188 bytes, laid out as the document writes them, and one table with a row for each case: its question,
// its room and bookmark where it speaks of them, and what must come out. `AllHold` says of the whole table, in the definitions
// that the other rooms' contracts cite, that each case comes out as stated. proofs/ proves it by computing from the bytes.
// There is no code here: nothing but the definitions is asked, so what is shown is that they say what the customer said.
