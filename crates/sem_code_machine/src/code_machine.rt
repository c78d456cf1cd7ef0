//! Code on slots as a machine of runs in which no jump is asked for. Definitions, without code.
