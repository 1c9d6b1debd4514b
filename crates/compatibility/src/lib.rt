// What is promised of sheets that were there before a request of document 02, and that it holds; that the definitions give each edge
// row of `spec` its answer. No code, and nothing stands on it: what is computed here is not paid again by every edit of `spec`.
#![tactic(auto)]
