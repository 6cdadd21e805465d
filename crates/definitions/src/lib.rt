// What the planner means, in whole numbers: see specs/, in the order of the scope document. No functions.
