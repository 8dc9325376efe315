#![tactic(auto)]
// No functions: the registers of the bus timer over lists of calls, and the flight through them. The statements are Told and InTime of specs/.
