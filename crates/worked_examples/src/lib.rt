// Examples that are computed: eleven of the bytes of pages and replies [examples], frames and pages in full, a run in which every fate occurs, and two of resets, errors and long moves. There is no code here.
#![tactic(auto)]
