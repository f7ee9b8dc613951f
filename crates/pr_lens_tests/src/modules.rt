//! Modules in Verilog, written out by hand.

use crate::calls::check_calls;
use std::alloc::AllocError;

/// A program of two bytes with its module. The two columns of a stage were made for one stream, so they share a comment.
const MODULE: &str = "\
$ pipelens rtl p
input x:12;
let s[0] = x ^ 1365;
output y = s[0];
= 0
/* verilator lint_off UNUSED */
module pipeline(
  input clock,
  input reset,
  input in_valid,
  output in_ready,
  output out_valid,
  input out_ready,
  input [11:0] x,
  output [11:0] y
);
wire [7:0] in$0 = x[7:0];
wire [7:0] in$1 = {4'd0, x[11:8]};
reg v$0;
reg [7:0] r0$0;
reg [7:0] r0$1;
reg v$1;
reg [7:0] r1$16;
reg [7:0] r1$17;
wire [7:0] a0$0 = in$0;
wire [7:0] x0$0 = a0$0;
wire [7:0] o0$0 = x0$0; // line 1, x
wire [7:0] a0$1 = in$1;
wire [7:0] x0$1 = a0$1;
wire [7:0] o0$1 = {4'd0, x0$1[3:0]};
wire [7:0] a1$0 = r0$0;
wire [7:0] b1$0 = 8'd85;
wire [7:0] x1$0 = a1$0 ^ b1$0;
wire [7:0] o1$0 = x1$0; // line 2, s[0]
wire [7:0] a1$1 = r0$1;
wire [7:0] b1$1 = 8'd5;
wire [7:0] x1$1 = a1$1 ^ b1$1;
wire [7:0] o1$1 = {4'd0, x1$1[3:0]};
assign in_ready = ~v$1 | out_ready;
assign out_valid = v$1;
wire [7:0] out$0 = r1$16;
wire [7:0] out$1 = r1$17;
assign y[7:0] = out$0[7:0];
assign y[11:8] = out$1[3:0];
always @(posedge clock) begin
  v$0 <= reset ? 1'b0 : (in_ready ? in_valid : v$0);
  r0$0 <= in_ready ? o0$0 : r0$0;
  r0$1 <= in_ready ? o0$1 : r0$1;
  v$1 <= reset ? 1'b0 : (in_ready ? v$0 : v$1);
  r1$16 <= in_ready ? o1$0 : r1$16;
  r1$17 <= in_ready ? o1$1 : r1$17;
end
endmodule
";

#[test]
fn modules(rt: HostRuntime) -> Result<(), AllocError> {
    check_calls(&rt, rt.alloc(), "", MODULE)
}
